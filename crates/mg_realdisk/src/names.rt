//! How names, volumes and drafts are spelled in a folder.

ghost use Rattle.std.specs.Prelude.{◌≡◌, Some, IfSome};
ghost use Rattle.mg_realdisk.specs.Names.{kind_letter};
ghost use Rattle.mg_types.specs.declared.names.Kind.{Kind};

use mg_disk::{Kind, Name};
use std::alloc::{AllocError, Global};

/// The number of hexadecimal digits of a name's number.
const NAME_DIGITS: usize = 16;

/// The number of hexadecimal digits of a draft's two numbers.
const DRAFT_DIGITS: usize = 24;

/// How many partitions have a volume.
const PARTITIONS: u16 = 64;

/// The folder of volume n: `p` and two digits for a partition's, `wal` for the log's.
pub(crate) fn volume_folder(alloc: Global, root: &str, n: u16) -> Result<String, AllocError> {
    if n < PARTITIONS {
        format!(in alloc; "{root}/p{n:02}")
    } else {
        format!(in alloc; "{root}/wal")
    }
}

/// The folder of files in writing.
pub(crate) fn draft_folder(alloc: Global, root: &str) -> Result<String, AllocError> {
    format!(in alloc; "{root}/tmp")
}

/// The file of the settings.
pub(crate) fn settings_path(alloc: Global, root: &str) -> Result<String, AllocError> {
    format!(in alloc; "{root}/magma.toml")
}

/// The file in that folder that a name stands for: the kind's letter and 16 lower-case hexadecimal digits.
pub(crate) fn path_of(alloc: Global, folder: &str, name: Name) -> Result<String, AllocError> {
    let letter = letter_of(name.kind);
    let number = name.number;
    format!(in alloc; "{folder}/{letter}{number:016x}")
}

/// The draft in that folder with these numbers.
pub(crate) fn draft_path(
    alloc: Global,
    folder: &str,
    port: u32,
    draft: u64,
) -> Result<String, AllocError> {
    format!(in alloc; "{folder}/d{port:08x}{draft:016x}")
}

/// The name that is spelled so, if one is.
pub(crate) fn name_of(text: &str) -> Option<Name> {
    let mut rest = text.chars();
    let kind = kind_of(rest.next()?)?;
    let digits = rest.as_str();
    if digits.len() != NAME_DIGITS || !are_digits(digits) {
        return None;
    }
    let number = u64::from_str_radix(digits, 16).ok()?;
    Some(Name { kind, number })
}

/// Whether a draft is spelled so.
pub(crate) fn is_draft(text: &str) -> bool {
    match text.split_at_checked(1) {
        Some((letter, digits)) => letter == "d"
            && digits.len() == DRAFT_DIGITS
            && are_digits(digits),
        None => false,
    }
}

fn are_digits(text: &str) -> bool {
    text.bytes()
        .all(|byte| matches!(byte, b'0'..=b'9' | b'a'..=b'f'))
}

fn letter_of(kind: Kind) -> char
    ensures { result ≡ kind_letter kind }
{
    match kind {
        Kind::Table => 't',
        Kind::Segment => 's',
        Kind::DelList => 'd',
        Kind::Manifest => 'm',
        Kind::Wal => 'w',
    }
}

fn kind_of(letter: char) -> Option<Kind>
    ensures right { IfSome result (λ kind. kind_letter kind ≡ letter) }
    ensures found { (kind : Kind) → kind_letter kind ≡ letter → result ≡ Some kind }
{
    match letter {
        't' => Some(Kind::Table),
        's' => Some(Kind::Segment),
        'd' => Some(Kind::DelList),
        'm' => Some(Kind::Manifest),
        'w' => Some(Kind::Wal),
        _ => None,
    }
}
