//! The words of the command line.

ghost use Rattle.std.specs.Prelude.{◌≡◌};
ghost use Rattle.mg_run.specs.Words.{are_alone_words, is_folder};

/// Whether a word can be a folder's name.
fn is_folder_name(name: &str) -> bool
    ensures { result ≡ is_folder name.now }
{
    !name.is_empty() && name.as_bytes()[0] != b'-'
}

/// Whether the words are a folder and `alone`.
pub fn ask_for_alone(words: &[String]) -> bool
    ensures { result ≡ are_alone_words words.now }
{
    match words {
        [folder, command] => is_folder_name(folder.as_str()) && command.as_str() == "alone",
        _ => false,
    }
}
