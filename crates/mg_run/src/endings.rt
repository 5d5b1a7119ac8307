//! The end of the program: its status, and what it says of a fault.

ghost use Rattle.std.specs.Prelude.{◌≡◌, ◌++◌, IsOkUnless, MatchOption, Ok, OnOk};
ghost use Rattle.std.specs.Process.{exit_status};
ghost use Rattle.mg_run.specs.Runs.{complaint};
ghost use Rattle.mg_serve.specs.Writing.{Wrote};

use crate::single::Ran;
use mg_io::Sink;
use mg_model::Fault;
use mg_script::fault_text;
use mg_serve::write_all;
use std::alloc::Global;
use std::process::ExitCode;

/// How the program ends.
#[derive(Debug, Drop)]
pub struct Ending {
    /// The status of the run.
    pub code: ExitCode,
    /// Whether all that is to be said on standard error was said.
    pub said: Result<(), Fault>,
}

/// Ends the program after a run: it has the run's status, and where the run names a fault, standard error gets
/// `magma: `, the fault's text and a line feed. After a failed write or want of memory a front of that was said, and
/// the status stays.
pub fn end_program<K: Sink>(alloc: Global, ran: &Ran, error: &mut K) -> Ending
    ensures status { exit_status result.code ≡ ran.now.status }
    ensures said { MatchOption ran.now.fault ((error.new ≡ error.old) × (result.said ≡ Ok tt))
        (λ fault. Wrote (K.written error.old) (K.written error.new) (K.faults error.old) (K.faults error.new) (complaint fault) result.said) }
    ensures good { OnOk result.said (K.faults error.new ≡ K.faults error.old) }
{
    let said = match &ran.fault {
        Some(fault) => say(alloc, fault, error),
        None => Ok(()),
    };
    Ending {
        code: ExitCode::from(ran.status),
        said,
    }
}

fn say<K: Sink>(alloc: Global, fault: &Fault, error: &mut K) -> Result<(), Fault>
    ensures said { Wrote (K.written error.old) (K.written error.new) (K.faults error.old) (K.faults error.new) (complaint fault.now) result }
    ensures good { OnOk result (K.faults error.new ≡ K.faults error.old) }
{
    let mut text = Vec::new(alloc);
    put_complaint(fault, &mut text)?;
    write_all(error, &text)
}

fn put_complaint(fault: &Fault, text: &mut Vec<u8>) -> Result<(), Fault>
    ensures ok { OnOk result (text.new.items ≡ text.old.items ++ complaint fault.now) }
    ensures err { IsOkUnless result Fault.NoMemory }
{
    text.extend_from_slice(b"magma: ")?;
    fault_text(fault, text)?;
    text.push(b'\n')?;
    Ok(())
}
