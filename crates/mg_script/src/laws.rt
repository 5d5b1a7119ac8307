//! Laws of the script's grammar, each a clause of a function that does nothing.

ghost use Rattle.std.specs.Prelude.{◌≡◌, ◌<◌, ◌^◌, ℕ, List, Ok};
ghost use Rattle.std.specs.List.{AllByRecursion};
ghost use Rattle.mg_script.specs.declared.script.Line.{Line};
ghost use Rattle.mg_script.specs.Lines.{IsSpellable, script_text};
ghost use Rattle.mg_script.specs.Script.{script_of};

/// Each list of lines has one spelling as a script: what is read is spelled so, each byte of it, and what is
/// spelled so is read again.
pub fn scripts_have_one_spelling()
    ensures read { (parts : ℕ) (bytes : List ℕ) (lines : List Line) → script_of parts bytes ≡ Ok lines → bytes ≡ script_text lines }
    ensures again { (parts : ℕ) (lines : List Line) → parts < 2 ^ 16 → AllByRecursion (IsSpellable parts) lines → script_of parts (script_text lines) ≡ Ok lines }
{}
