//! What may be wrong with a record that a body spells.

ghost use Rattle.std.specs.Prelude.{◌≡◌, ◌<◌, ◌≤◌, ◌^◌, None, Some, MatchResult, OnOk};
ghost use Rattle.mg_manifest_format.specs.Flaws.{fault_of, file_flaw, first_flaw, layout_flaw, mark_flaw, marks_flaw, number_flaw, numbers_flaw, record_flaw, rule_flaw, run_flaw};

use crate::layout::{LayoutNames, NamedFile, RunNames};
use crate::record::{ManifestRec, MarkNames};
use mg_types::{Fault, FileId, NUMBER_LIMIT, SEQ_LIMIT, is_number};

/// The most runs of a layout.
const MAX_RUNS: usize = 16;

/// The most marks of a record.
const MAX_MARKS: usize = 16;

/// What is wrong with a record.
#[derive(Clone, Copy, Debug, PartialEq, Eq)]
pub(crate) enum Flaw {
    /// It is outside the grammar.
    BrokenRule,
    /// It has a number of 2^62 or more.
    GreatNumber { number: u64 },
}

impl Flaw {
    /// The fault that names the flaw of a record in the frame at this offset.
    pub(crate) fn fault(self, file: FileId, at: u64) -> Fault
        ensures { result ≡ fault_of file at self }
    {
        match self {
            Flaw::BrokenRule => Fault::Malformed { file, at },
            Flaw::GreatNumber { number } => Fault::Damaged {
                file,
                at,
                kept: number,
                found: NUMBER_LIMIT,
            },
        }
    }
}

fn check_number(number: u64) -> Result<(), Flaw>
    ensures { MatchResult result (λ _. number_flaw number ≡ None) (λ flaw. number_flaw number ≡ Some flaw) }
{
    if !is_number(number) {
        return Err(Flaw::GreatNumber { number });
    }
    Ok(())
}

fn check_rule(holds: bool) -> Result<(), Flaw>
    ensures { MatchResult result (λ _. rule_flaw holds ≡ None) (λ flaw. rule_flaw holds ≡ Some flaw) }
{
    if !holds {
        return Err(Flaw::BrokenRule);
    }
    Ok(())
}

fn check_file(next: u64, file: &NamedFile) -> Result<(), Flaw>
    ensures { MatchResult result (λ _. file_flaw next file.now ≡ None) (λ flaw. file_flaw next file.now ≡ Some flaw) }
{
    check_number(file.number)?;
    check_rule(file.number < next)?;
    check_number(file.len)
}

fn check_files(next: u64, files: &[NamedFile]) -> Result<(), Flaw>
    ensures { MatchResult result (λ _. first_flaw (file_flaw next) files.now ≡ None) (λ flaw. first_flaw (file_flaw next) files.now ≡ Some flaw) }
{
    for file in files {
        check_file(next, file)?;
    }
    Ok(())
}

fn check_run(next: u64, run: &RunNames) -> Result<(), Flaw>
    ensures { MatchResult result (λ _. run_flaw next run.now ≡ None) (λ flaw. run_flaw next run.now ≡ Some flaw) }
{
    check_number(run.lo)?;
    check_number(run.hi)?;
    check_rule(1 <= run.files.len())?;
    check_files(next, run.files.as_slice())
}

fn check_runs(next: u64, runs: &[RunNames]) -> Result<(), Flaw>
    ensures { MatchResult result (λ _. first_flaw (run_flaw next) runs.now ≡ None) (λ flaw. first_flaw (run_flaw next) runs.now ≡ Some flaw) }
{
    for run in runs {
        check_run(next, run)?;
    }
    Ok(())
}

fn check_layout(next: u64, layout: &LayoutNames) -> Result<(), Flaw>
    ensures { MatchResult result (λ _. layout_flaw next layout.now ≡ None) (λ flaw. layout_flaw next layout.now ≡ Some flaw) }
{
    check_rule(layout.runs.len() <= MAX_RUNS)?;
    check_runs(next, layout.runs.as_slice())?;
    check_files(next, layout.segments.as_slice())?;
    check_files(next, layout.deletes.as_slice())
}

/// Judges a mark behind lower ones, which is to be `least` or above.
fn check_mark(next: u64, flushed: u64, least: u64, mark: &MarkNames) -> Result<(), Flaw>
    ensures judged { MatchResult result (λ _. mark_flaw next flushed least mark.now ≡ None) (λ flaw. mark_flaw next flushed least mark.now ≡ Some flaw) }
    ensures kept { OnOk result (mark.now.mark < 2 ^ 62) }
{
    check_number(mark.mark)?;
    check_rule(least <= mark.mark)?;
    check_rule(mark.mark <= flushed)?;
    check_layout(next, &mark.layout)
}

fn check_marks(next: u64, flushed: u64, marks: &[MarkNames]) -> Result<(), Flaw>
    ensures { MatchResult result (λ _. marks_flaw next flushed 0 marks.now ≡ None) (λ flaw. marks_flaw next flushed 0 marks.now ≡ Some flaw) }
{
    let mut least = 0;
    for mark in marks {
        check_mark(next, flushed, least, mark)?;
        least = mark.mark + 1;
    }
    Ok(())
}

fn check_numbers(rec: &ManifestRec) -> Result<(), Flaw>
    ensures { MatchResult result (λ _. numbers_flaw rec.now ≡ None) (λ flaw. numbers_flaw rec.now ≡ Some flaw) }
{
    check_number(rec.version)?;
    check_number(rec.epoch)?;
    check_number(rec.applied)?;
    check_number(rec.receipt)?;
    check_number(rec.flushed)?;
    check_rule(rec.flushed <= SEQ_LIMIT)?;
    check_number(rec.next_file)
}

/// Judges a record, from left to right.
pub(crate) fn check_record(rec: &ManifestRec) -> Result<(), Flaw>
    ensures { MatchResult result (λ _. record_flaw rec.now ≡ None) (λ flaw. record_flaw rec.now ≡ Some flaw) }
{
    check_numbers(rec)?;
    check_layout(rec.next_file, &rec.layout)?;
    check_rule(rec.marks.len() <= MAX_MARKS)?;
    check_marks(rec.next_file, rec.flushed, rec.marks.as_slice())
}
