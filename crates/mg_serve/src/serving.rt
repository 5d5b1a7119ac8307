//! A run of calls: all lines of a script, the last sync, and the end lines.

ghost use Rattle.std.specs.Prelude.{◌≡◌, ◌≤◌, ℕ, [], length, MatchResult};
ghost use Rattle.std.specs.List.{All};
ghost use Rattle.mg_recover.specs.Stores.{log_book, log_volume, partitions_of, Stands};
ghost use Rattle.mg_script.specs.Script.{IsLine};
ghost use Rattle.mg_serve.specs.Answers.{line_limit};
ghost use Rattle.mg_serve.specs.Serving.{BrokeInLine, IsEnd, KeepsFrom, LastsFrom, Made, Ran, ServedAll};
ghost use Rattle.mg_serve.specs.Sessions.{session_volume, standing_of, StandsAt};
ghost use Rattle.mg_wal.specs.Book.{parts_in};
ghost use Rattle.mg_wal.specs.Lists.{Basis};

use crate::ends::write_ends;
use crate::session::Session;
use mg_disk::Volume;
use mg_io::Sink;
use mg_model::Fault;
use mg_recover::Store;
use mg_script::Line;
use std::alloc::Global;

/// What a run of calls leaves.
#[derive(Debug, Drop)]
pub struct Served<V: Volume> {
    /// The volume of the log.
    pub vol: V,
    /// What the last sync was answered.
    pub synced: Result<(), Fault>,
    /// The gravest status of the answers, or why the run broke off.
    pub ended: Result<u8, Fault>,
}

/// Answers the calls of a script in order over a store of so many partitions, and writes each line when its call has answered; then
/// syncs the log once, and writes the end lines.
///
/// After a write that failed no further call is made, the log is synced all the same, and no end line is written. Where the last
/// sync fails, no end line is written either. Memory is that of the store and of one answer.
pub fn serve<V: Volume, K: Sink>(
    alloc: Global,
    store: Store<V>,
    parts: u16,
    lines: Vec<Line>,
    out: &mut K,
) -> Served<V>
    requires parts { parts_in (log_book store) ≡ parts }
    requires some { 1 ≤ parts }
    requires form { All (IsLine parts) lines.items }
    requires few { length lines.items ≤ line_limit }
    requires stands { (basis : Basis) × Stands basis [] (log_book store) (partitions_of store) × ((log_book store).newest ≤ basis.newest) }
    ensures { (basis : Basis) (opening : ℕ) → Stands basis [] (log_book store) (partitions_of store) → (log_book store).newest ≤ basis.newest
        → Ran parts basis lines.items (V.faults (log_volume store)) (V.faults result.vol)
        (KeepsFrom V.tells basis opening (log_book store) (V.view (log_volume store)) (V.view result.vol))
        (LastsFrom V.tells basis opening (log_book store) (V.view (log_volume store)) (V.view result.vol))
        (K.written out.old) (K.written out.new) (K.faults out.old) (K.faults out.new) result.synced result.ended }
{
    let mut session = Session::new(store);
    let served = serve_all(alloc, &mut session, lines, out);
    let Session {
        mut store,
        status,
        counts: _,
    } = session;
    let synced = store.finish(alloc);
    let ended = end(alloc, &store, parts, status, served, &synced, out);
    Served {
        vol: store.into_volume(),
        synced,
        ended,
    }
}

/// Where all calls were served and the last sync was answered, writes the end lines and answers the status.
fn end<V: Volume, K: Sink>(
    alloc: Global,
    store: &Store<V>,
    parts: u16,
    status: u8,
    served: Result<(), Fault>,
    synced: &Result<(), Fault>,
    out: &mut K,
) -> Result<u8, Fault>
    requires { parts_in (log_book store.now) ≡ parts }
    ensures { IsEnd (partitions_of store.now) parts status (K.written out.old) (K.written out.new) (K.faults out.old) (K.faults out.new) served synced.now result }
{
    served?;
    if let Err(fault) = synced {
        return Err(*fault);
    }
    write_ends(alloc, store, parts, out)?;
    Ok(status)
}

/// Answers the calls of a script in order, and writes each line when its call has answered. After a write that failed it makes no
/// further call.
fn serve_all<V: Volume, K: Sink>(
    alloc: Global,
    session: &mut Session<V>,
    lines: Vec<Line>,
    out: &mut K,
) -> Result<(), Fault>
    requires form { All (IsLine (parts_in (standing_of session.old).book)) lines.items }
    requires few { length lines.items ≤ line_limit }
    requires stands { (basis : Basis) × StandsAt basis [] [] (standing_of session.old) }
    ensures later { K.faults out.old ≤ K.faults out.new }
    ensures parts { parts_in (standing_of session.new).book ≡ parts_in (standing_of session.old).book }
    ensures served { (basis : Basis) (opening : ℕ) → StandsAt basis [] [] (standing_of session.old)
        → MatchResult result
        (λ _. ServedAll lines.items (K.written out.old) (K.written out.new) (K.faults out.old) (K.faults out.new)
        (λ lines answers. Made basis lines answers (standing_of session.new) opening (V.faults (session_volume session.old)) (V.faults (session_volume session.new))
        V.tells (standing_of session.old).book (V.view (session_volume session.old)) (V.view (session_volume session.new))))
        (λ fault. BrokeInLine lines.items (K.written out.old) (K.written out.new) (K.faults out.old) (K.faults out.new)
        (λ lines answers. Made basis lines answers (standing_of session.new) opening (V.faults (session_volume session.old)) (V.faults (session_volume session.new))
        V.tells (standing_of session.old).book (V.view (session_volume session.old)) (V.view (session_volume session.new))) fault) }
{
    for line in lines {
        session.serve(alloc, line, out)?;
    }
    Ok(())
}
