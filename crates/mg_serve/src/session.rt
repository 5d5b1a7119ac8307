//! The calls of a script, answered one after the other.

ghost use Rattle.std.specs.Prelude.{◌≡◌, length, OnOk, IfErr, ◌≤◌};
ghost use Rattle.mg_model.specs.declared.replies.Answer.{Answer};
ghost use Rattle.mg_script.specs.Transcript.{answer_line, IsLineFault};
ghost use Rattle.mg_serve.specs.Writing.{Wrote};

use crate::status::{graver_of, status_of_result};
use crate::writing::write_all;
use mg_disk::Volume;
use mg_io::Sink;
use mg_model::{Answer, Fault};
use mg_recover::Store;
use mg_script::{Line, put_answer};
use std::alloc::Global;

/// How many clients there are.
pub const CLIENTS: usize = 16;

/// A store, and what the calls of a script have led to.
#[derive(Drop)]
pub struct Session<V: Volume> {
    pub(crate) store: Store<V>,
    /// How many calls each client made.
    pub(crate) counts: [u64; CLIENTS],
    /// The gravest status of the answers.
    pub(crate) status: u8,
}

/// Writes the line of an answer. After an error a front of it was written.
fn write_answer<K: Sink>(
    alloc: Global,
    client: u8,
    number: u64,
    part: u16,
    answer: &Answer,
    out: &mut K,
) -> Result<(), Fault>
    requires { IfErr answer.now.result IsLineFault }
    ensures later { K.faults out.old ≤ K.faults out.new }
    ensures good { OnOk result (K.faults out.new ≡ K.faults out.old) }
    ensures wrote { Wrote (K.written out.old) (K.written out.new) (K.faults out.old) (K.faults out.new) (answer_line client number part answer.now) result }
{
    let mut text = Vec::new(alloc);
    put_answer(client, number, part, answer, &mut text)?;
    write_all(out, &text)
}

impl<V: Volume> Session<V> {
    ghost use Rattle.std.specs.Prelude.{◌++◌, ◌∷◌, ◌<◌, ℕ, List, [], IsTrue};
    ghost use Rattle.mg_faults.specs.Causes.{CountsOnce, HasCause};
    ghost use Rattle.mg_recover.specs.Stores.{log_book, log_volume, partitions_of, Stands};
    ghost use Rattle.mg_script.specs.declared.script.Line.{Line};
    ghost use Rattle.mg_script.specs.Script.{IsLine};
    ghost use Rattle.mg_serve.specs.Answers.{line_limit};
    ghost use Rattle.mg_serve.specs.Lasting.{Holds};
    ghost use Rattle.mg_serve.specs.Serving.{ServedNext};
    ghost use Rattle.mg_serve.specs.Sessions.{session_volume, standing_of, IsReached, NextAnswer, StandsAt};
    ghost use Rattle.mg_wal.specs.Book.{parts_in};
    ghost use Rattle.mg_wal.specs.Lists.{Basis};

    /// A session in which no call was made.
    pub(crate) fn new(store: Store<V>) -> Session<V>
        ensures stands { (basis : Basis) → Stands basis [] (log_book store) (partitions_of store) → (log_book store).newest ≤ basis.newest
            → StandsAt basis [] [] (standing_of result) }
        ensures book { (standing_of result).book ≡ log_book store }
        ensures volume { session_volume result ≡ log_volume store }
    {
        Session {
            store,
            counts: [0; CLIENTS],
            status: 0,
        }
    }

    /// Answers the call of a line, as so many-th of its client.
    fn answer(&mut self, alloc: Global, line: Line) -> (u64, Answer)
        requires form { IsLine (parts_in (standing_of self.old).book) line }
        requires reached { IsReached (standing_of self.old) }
        ensures answered { (basis : Basis) (lines : List Line) (answers : List Answer) → StandsAt basis lines answers (standing_of self.old) → length lines < line_limit
            → NextAnswer basis lines answers line result.0 result.1 (standing_of self.new) }
        ensures holds { IsTrue V.tells → (basis : Basis) (lines : List Line) (answers : List Answer) (opening : ℕ) → StandsAt basis lines answers (standing_of self.old)
            → Holds basis lines answers opening (standing_of self.old).book (V.view (session_volume self.old))
            → Holds basis (lines ++ line ∷ []) (answers ++ result.1 ∷ []) opening (standing_of self.new).book (V.view (session_volume self.new)) }
        ensures parts { parts_in (standing_of self.new).book ≡ parts_in (standing_of self.old).book }
        ensures fault { IfErr result.1.result IsLineFault }
        ensures cause { HasCause Fault.WriteFault (V.faults (session_volume self.old)) (V.faults (session_volume self.new)) result.1.result }
        ensures once { CountsOnce (V.faults (session_volume self.old)) (V.faults (session_volume self.new)) result.1.result }
    {
        let client = usize::from(line.client);
        let number = self.counts[client] + 1;
        self.counts[client] = number;
        let answer = self.store.call(alloc, line.part, line.call);
        self.status = graver_of(self.status, status_of_result(&answer.result));
        (number, answer)
    }

    /// Answers the call of a line, and writes the line of its answer.
    pub(crate) fn serve<K: Sink>(
        &mut self,
        alloc: Global,
        line: Line,
        out: &mut K,
    ) -> Result<(), Fault>
        requires form { IsLine (parts_in (standing_of self.old).book) line }
        requires reached { IsReached (standing_of self.old) }
        ensures later { K.faults out.old ≤ K.faults out.new }
        ensures good { OnOk result (K.faults out.new ≡ K.faults out.old) }
        ensures parts { parts_in (standing_of self.new).book ≡ parts_in (standing_of self.old).book }
        ensures served { (basis : Basis) (lines : List Line) (answers : List Answer) → StandsAt basis lines answers (standing_of self.old) → length lines < line_limit
            → ServedNext basis lines answers line (standing_of self.new) (V.faults (session_volume self.old)) (V.faults (session_volume self.new))
            (K.written out.old) (K.written out.new) (K.faults out.old) (K.faults out.new) result
            (λ answer. IsTrue V.tells → (opening : ℕ) → Holds basis lines answers opening (standing_of self.old).book (V.view (session_volume self.old))
            → Holds basis (lines ++ line ∷ []) (answers ++ answer ∷ []) opening (standing_of self.new).book (V.view (session_volume self.new))) }
    {
        let client = line.client;
        let part = line.part;
        let (number, answer) = self.answer(alloc, line);
        write_answer(alloc, client, number, part, &answer, out)
    }
}
