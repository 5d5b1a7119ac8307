//! The script of a run.

ghost use Rattle.std.specs.Prelude.{◌≡◌, ◌≤◌, length, IfOk, MatchResult, OnOk};
ghost use Rattle.std.specs.List.{All};
ghost use Rattle.mg_run.specs.Runs.{ReadsScript, StopsInput};
ghost use Rattle.mg_script.specs.Script.{IsLine};
ghost use Rattle.mg_serve.specs.Answers.{line_limit};

use crate::streams::read_all;
use mg_io::Source;
use mg_model::Fault;
use mg_script::{Line, read_script};
use std::alloc::Global;

/// Reads the input to its end, and in it the lines of a script over so many partitions. It takes the memory of the bytes and of the
/// lines; the bytes are given back.
pub(crate) fn read_lines<S: Source>(
    alloc: Global,
    input: &mut S,
    parts: u16,
) -> Result<Vec<Line>, Fault>
    ensures form { IfOk result (λ lines. All (IsLine parts) lines.items) }
    ensures few { IfOk result (λ lines. length lines.items ≤ line_limit) }
    ensures good { OnOk result (S.faults input.new ≡ S.faults input.old) }
    ensures read { MatchResult result (λ lines. ReadsScript parts (S.left input.old) (S.left input.new) lines.items)
        (λ fault. StopsInput parts (S.left input.old) (S.left input.new) (S.faults input.old) (S.faults input.new) fault) }
{
    let bytes = read_all(alloc, input)?;
    read_script(alloc, &bytes, parts)
}
