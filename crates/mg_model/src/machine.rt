//! The plain machine: a vector of mutations, searched from end to end.

ghost use Rattle.std.specs.Prelude.{◌≡◌, ◌+◌, ◌≤◌, IfOk, IsOkUnless, IsTrue, None, OnErr, OnOk};
ghost use Rattle.mg_model.specs.Mutations.{read};
ghost use Rattle.mg_model.specs.State.{after_back, after_write, at_limit, EndsWithin, epoch_limit, feed_reply, get_reply, HasRoom, length_of, new_state, seq_limit, step, takes_memory, worn};

use crate::calls::Call;
use crate::marks::{cut_marks, greatest_at_most, least_of, remove_mark};
use crate::mutations::Mutation;
use crate::replies::Reply;
use crate::scan::{feed_items, last_number, live_documents, live_sizes, newest_place};
use mg_types::{Doc, Fault, Key, NUMBER_LIMIT, SEQ_LIMIT};
use std::alloc::Global;
use std::marker::Model;

/// The slow machine, kept plain so that it can be read: every faster one must answer what it does.
///
/// A get, and each item of a feed, costs a pass over all mutations.
#[derive(Debug, Drop)]
pub struct Plain {
    mutations: Vec<Mutation>,
    marks: Vec<u64>,
    epoch: u64,
}

/// The most marks that are kept.
const MARK_LIMIT: u8 = 16;

/// The greatest epoch.
const EPOCH_LIMIT: u64 = NUMBER_LIMIT - 1;

/// The number, where one more passes the limit.
fn at_most(number: u64, limit: u64) -> Option<u64>
    ensures { result ≡ at_limit limit number }
{
    if number < limit { None } else { Some(number) }
}

impl Model for Plain {
    ghost use Rattle.std.specs.Prelude.{◌≤◌, length};
    ghost use Rattle.mg_model.specs.Mutations.{held};
    ghost use Rattle.mg_model.specs.State.{State, seq_limit, epoch_limit};

    ghost Value = { State };

    ghost view = { λ p. record { mutations = held p.mutations.items; marks = p.marks.items; epoch = p.epoch } };

    ghost invariant = { λ p. (length p.mutations.items ≤ seq_limit) × (p.epoch ≤ epoch_limit) };
}

impl Plain {
    /// A machine to which nothing has happened. It takes no memory.
    pub fn new(alloc: Global) -> Plain
        ensures { result ≡ new_state }
    {
        Plain {
            mutations: Vec::new(alloc),
            marks: Vec::new(alloc),
            epoch: 0,
        }
    }

    /// The number of mutations.
    pub fn length(&self) -> u64
        ensures { result ≡ length_of self.now }
    {
        self.mutations.len() as u64
    }

    pub fn epoch(&self) -> u64
        ensures { result ≡ self.now.epoch }
    {
        self.epoch
    }

    /// The number, as it stands, that the call would raise past its limit, or `None` where it passes none. Takes no memory.
    pub fn worn(&self, call: &Call) -> Option<u64>
        ensures { result ≡ worn self.now call.now }
    {
        match call {
            Call::Set { .. } | Call::Del { .. } => at_most(self.length(), SEQ_LIMIT),
            Call::Rollback { to } => {
                greatest_at_most(&self.marks, *to).and_then(|_mark| at_most(
                    self.epoch,
                    EPOCH_LIMIT,
                ))
            }
            Call::Clear => at_most(self.epoch, EPOCH_LIMIT),
            _ => None,
        }
    }

    /// One step: the state after the call and its reply are the definition's. A forget, a rollback, a clear, a sync, a
    /// compaction and stats take no memory, so they are always `Ok`.
    pub fn apply(&mut self, alloc: Global, call: &Call) -> Result<Reply, Fault>
        requires room { HasRoom self.old call.now }
        requires within { EndsWithin self.old call.now }
        ensures step { IfOk result (λ reply. step self.old call.now ≡ record { state = self.new; reply = reply }) }
        ensures err { IsOkUnless result Fault.NoMemory }
        ensures memory { OnErr result (IsTrue (takes_memory (step self.old call.now).reply)) }
        ensures same { OnErr result (self.new ≡ self.old) }
    {
        match call {
            Call::Set { key, doc } => {
                let doc = doc.copy(alloc)?;
                self.write(key.copy(alloc)?, Some(doc))
            }
            Call::Del { key } => self.write(key.copy(alloc)?, None),
            Call::Get { key } => self.get(alloc, key),
            Call::Feed {
                epoch,
                after,
                limit,
            } => self.feed(alloc, *epoch, *after, *limit),
            Call::Mark => self.mark(),
            Call::Forget { mark } => Ok(self.forget(*mark)),
            Call::Rollback { to } => Ok(self.rollback(*to)),
            Call::Clear => Ok(self.clear()),
            Call::Sync => Ok(Reply::Synced),
            Call::Compact { through } => Ok(self.compact(*through)),
            Call::Stats => Ok(self.stats()),
        }
    }

    fn write(&mut self, key: Key, doc: Option<Doc>) -> Result<Reply, Fault>
        requires { at_limit seq_limit (length_of self.old) ≡ None }
        ensures ok { OnOk result (self.new ≡ after_write self.old (record { key = key; doc = doc })) }
        ensures reply { IfOk result (λ reply. reply ≡ Reply.Seq (length_of self.old + 1)) }
        ensures err { IsOkUnless result Fault.NoMemory }
        ensures same { OnErr result (self.new ≡ self.old) }
    {
        self.mutations.push(Mutation { key, doc })?;
        Ok(Reply::Seq { seq: self.length() })
    }

    fn get(&self, alloc: Global, key: &Key) -> Result<Reply, Fault>
        ensures reply { IfOk result (λ reply. reply ≡ get_reply (read self.now.mutations key.now)) }
        ensures err { IsOkUnless result Fault.NoMemory }
        ensures memory { OnErr result (IsTrue (takes_memory (get_reply (read self.now.mutations key.now)))) }
    {
        let place = newest_place(&self.mutations, key);
        if place == 0 {
            return Ok(Reply::Absent);
        }
        match &self.mutations[place - 1].doc {
            Some(doc) => Ok(Reply::Found {
                seq: place as u64,
                doc: doc.copy(alloc)?,
            }),
            None => Ok(Reply::Absent),
        }
    }

    fn feed(&self, alloc: Global, epoch: u64, after: u64, limit: u16) -> Result<Reply, Fault>
        ensures reply { IfOk result (λ reply. reply ≡ feed_reply self.now epoch after limit) }
        ensures err { IsOkUnless result Fault.NoMemory }
        ensures memory { OnErr result (IsTrue (takes_memory (feed_reply self.now epoch after limit))) }
    {
        let length = self.length();
        if epoch != self.epoch {
            return Ok(Reply::Epoch { epoch: self.epoch });
        }
        if after > length {
            return Ok(Reply::Ahead { length });
        }
        let items = feed_items(alloc, &self.mutations, after, limit)?;
        let end = if items.len() == usize::from(limit) {
            last_number(items.as_slice(), after)
        } else {
            length
        };
        Ok(Reply::Feed { epoch, end, items })
    }

    fn mark(&mut self) -> Result<Reply, Fault>
        ensures step { IfOk result (λ reply. step self.old Call.Mark ≡ record { state = self.new; reply = reply }) }
        ensures err { IsOkUnless result Fault.NoMemory }
        ensures memory { OnErr result (IsTrue (takes_memory (step self.old Call.Mark).reply)) }
        ensures same { OnErr result (self.new ≡ self.old) }
    {
        let mark = self.length();
        if self.marks.contains(&mark) {
            return Ok(Reply::Marked { mark });
        }
        if self.marks.len() >= usize::from(MARK_LIMIT) {
            return Ok(Reply::Full { kept: MARK_LIMIT });
        }
        self.marks.push(mark)?;
        Ok(Reply::Marked { mark })
    }

    fn forget(&mut self, mark: u64) -> Reply
        ensures { step self.old (Call.Forget mark) ≡ record { state = self.new; reply = result } }
    {
        if !self.marks.contains(&mark) {
            return Reply::NoMark { mark };
        }
        remove_mark(&mut self.marks, mark);
        Reply::Forgot { mark }
    }

    fn rollback(&mut self, to: u64) -> Reply
        requires { HasRoom self.old (Call.Rollback to) }
        ensures { step self.old (Call.Rollback to) ≡ record { state = self.new; reply = result } }
    {
        match greatest_at_most(&self.marks, to) {
            Some(mark) => self.go_back(mark),
            None => Reply::Reset {
                least: least_of(&self.marks),
            },
        }
    }

    #[tactic(auto, using(crate::proofs::ListLemmas::held_take))]
    fn go_back(&mut self, mark: u64) -> Reply
        requires { at_limit epoch_limit self.old.epoch ≡ None }
        ensures state { self.new ≡ after_back self.old mark }
        ensures reply { result ≡ Reply.Back mark (self.old.epoch + 1) }
    {
        self.mutations.truncate(mark as usize);
        cut_marks(&mut self.marks, mark);
        self.epoch += 1;
        Reply::Back {
            mark,
            epoch: self.epoch,
        }
    }

    fn clear(&mut self) -> Reply
        requires { HasRoom self.old Call.Clear }
        ensures { step self.old Call.Clear ≡ record { state = self.new; reply = result } }
    {
        self.mutations.clear();
        self.marks.clear();
        self.epoch += 1;
        Reply::Cleared { epoch: self.epoch }
    }

    #[tactic(auto, using(crate::proofs::ListLemmas::held_take))]
    fn compact(&self, through: u64) -> Reply
        requires { through ≤ length_of self.now }
        ensures { step self.now (Call.Compact through) ≡ record { state = self.now; reply = result } }
    {
        let first = live_sizes(&self.mutations[..through as usize]);
        Reply::Compacted {
            through,
            keys: first.count,
            bytes: first.bytes,
        }
    }

    fn stats(&self) -> Reply
        ensures { step self.now Call.Stats ≡ record { state = self.now; reply = result } }
    {
        let documents = live_documents(&self.mutations);
        Reply::Stats {
            length: self.length(),
            live: documents.count,
            bytes: documents.bytes,
            marks: self.marks.len() as u64,
            epoch: self.epoch,
        }
    }
}
