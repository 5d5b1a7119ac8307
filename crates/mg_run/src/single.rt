//! One thread, from the bytes in to the bytes out.

ghost use Rattle.std.specs.Prelude.{◌≡◌, true, false, ◌↔◌, Err, IfSome, MatchOption, Ok, Some};
ghost use Rattle.mg_run.specs.Hosting.{log_volume};
ghost use Rattle.mg_run.specs.Runs.{HasRun, Seen};
ghost use Rattle.mg_run.specs.Words.{are_alone_words};
ghost use Rattle.mg_serve.specs.Statuses.{fault_status};

use crate::hosted::{host_settings, run_host};
use crate::reading::read_lines;
use crate::words::ask_for_alone;
use mg_disk::Host;
use mg_io::{Sink, Source};
use mg_model::Fault;
use mg_serve::status_of;
use std::alloc::Global;

/// How a run ended.
#[derive(Debug, Drop)]
pub struct Ran {
    /// The exit status: 0 where each call was answered without a fault, else 1 to 5 by the gravest fault.
    pub status: u8,
    /// Why the run was refused or broke off, if it did.
    pub fault: Option<Fault>,
}

/// Answers a script's calls in order, in one thread, over the partitions of a host: it reads the host's settings, and the input to
/// its end; recovers the shared log, and with it all partitions; answers each line by a line; syncs the log once, and writes the end
/// lines.
///
/// The words are a folder and `alone`; others are `BadWords`, before anything is asked for. `BadSettings` names the first rule that
/// the settings break. `TooLong` comes once one byte more than a script may have was taken, `BadLine` where a line of the whole input
/// is no call. Then come the refusals of the log: `Damaged`, `Malformed`, `FewerParts`, `Gap` and `Worn`. Up to here nothing is
/// written. `ReadFault` comes only where the host, the source or the log's volume failed, `WriteFault` only where the log's volume
/// failed at the opening or in the last sync, or the sink. After a failed write no further call is made, and the log is synced all
/// the same. Want of memory can come at any step.
pub fn alone<H: Host, S: Source, K: Sink>(
    alloc: Global,
    words: &[String],
    input: &mut S,
    out: &mut K,
    host: &mut H,
) -> Ran
    requires { (H.state host.old).out 65535 ≡ false }
    ensures words { (result.fault ≡ Some Fault.BadWords) ↔ (are_alone_words words.now ≡ false) }
    ensures untouched { are_alone_words words.now ≡ false → (input.new ≡ input.old) × (out.new ≡ out.old) × (host.new ≡ host.old) }

    // The log's volume is in again.
    ensures back { (H.state host.new).out 65535 ≡ false }

    // Where a fault is named it decides the status; else the answers do.
    ensures status { IfSome result.fault (λ fault. result.status ≡ fault_status fault) }

    // The run finished, or stopped for a fault with its cause.
    ensures run { let before : Seen = record { left = S.left input.old; read_faults = S.faults input.old; written = K.written out.old; write_faults = K.faults out.old; host_faults = H.faults host.old } in
        let after : Seen = record { left = S.left input.new; read_faults = S.faults input.new; written = K.written out.new; write_faults = K.faults out.new; host_faults = H.faults host.new } in
        are_alone_words words.now ≡ true → MatchOption result.fault (HasRun H.Vol.tells H.Vol.view (H.state host.old) (H.state host.new) before after (Ok result.status))
        (λ fault. HasRun H.Vol.tells H.Vol.view (H.state host.old) (H.state host.new) before after (Err fault)) }
{
    if !ask_for_alone(words) {
        return refused(Fault::BadWords);
    }
    match run(alloc, input, out, host) {
        Ok(status) => Ran {
            status,
            fault: None,
        },
        Err(fault) => refused(fault),
    }
}

/// How a run ends that stops for this fault.
pub fn refused(fault: Fault) -> Ran
    ensures { result ≡ record { status = fault_status fault; fault = Some fault } }
{
    Ran {
        status: status_of(&fault),
        fault: Some(fault),
    }
}

/// A run over good words: its status, or why it stopped.
fn run<H: Host, S: Source, K: Sink>(
    alloc: Global,
    input: &mut S,
    out: &mut K,
    host: &mut H,
) -> Result<u8, Fault>
    requires { (H.state host.old).out 65535 ≡ false }
    ensures back { (H.state host.new).out 65535 ≡ false }
    ensures run { let before : Seen = record { left = S.left input.old; read_faults = S.faults input.old; written = K.written out.old; write_faults = K.faults out.old; host_faults = H.faults host.old } in
        let after : Seen = record { left = S.left input.new; read_faults = S.faults input.new; written = K.written out.new; write_faults = K.faults out.new; host_faults = H.faults host.new } in
        HasRun H.Vol.tells H.Vol.view (H.state host.old) (H.state host.new) before after result }
{
    let settings = host_settings(alloc, host)?;
    let lines = read_lines(alloc, input, settings.partitions)?;
    run_host(alloc, host, settings.partitions, lines, out)
}
