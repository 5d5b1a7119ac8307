//! One partition of a store.

ghost use Rattle.std.specs.Prelude.{◌≡◌, ◌<◌, ◌^◌, ◌⊎◌, IfOk, IfErr, IsOkUnless, IsTrue};
ghost use Rattle.mg_model.specs.History.{after_change, allows, call_for};
ghost use Rattle.mg_model.specs.Fits.{is_read};
ghost use Rattle.mg_model.specs.State.{EndsWithin, HasRoom};
ghost use Rattle.mg_recover.specs.Answers.{IsAtLimit};
ghost use Rattle.mg_recover.specs.Steps.{placed_answer, places_behind, shows_made, takes_place, IsNoWrite, IsStep};
ghost use Rattle.mg_recover.specs.Stores.{new_partition};

use mg_model::{Answer, Call, Change, Fault, Plain, Reply, calls_make_the_allowed_changes};
use std::alloc::Global;

/// A partition: its plain list, and how many calls of the run took a place.
#[derive(Debug, Drop)]
pub struct Partition {
    pub plain: Plain,
    pub places: u64,
}

/// Whether a call takes its place also where it is answered a fault.
pub(crate) fn is_read(call: &Call) -> bool
    ensures { result ≡ is_read call.now }
{
    matches!(call, Call::Get { .. } | Call::Feed { .. } | Call::Stats)
}

/// The change that a set or a delete makes; another call comes back.
pub(crate) fn change_in(call: Call) -> Result<Change, Call>
    ensures ok { IfOk result (λ what. call ≡ call_for what) }
    ensures back { IfErr result (λ back. (back ≡ call) × IsNoWrite call) }
{
    match call {
        Call::Set { key, doc } => Ok(Change::Set { key, doc }),
        Call::Del { key } => Ok(Change::Del { key }),
        other => Err(other),
    }
}

/// The call that makes a change.
pub(crate) fn call_for(what: Change) -> Call
    ensures { result ≡ call_for what }
{
    match what {
        Change::Set { key, doc } => Call::Set { key, doc },
        Change::Del { key } => Call::Del { key },
        Change::Mark => Call::Mark,
        Change::Forget { mark } => Call::Forget { mark },
        Change::Back { mark } => Call::Rollback { to: mark },
        Change::Clear => Call::Clear,
    }
}

/// Whether a reply says that the change was made, and none in its place.
fn is_made(what: &Change, reply: &Reply) -> bool
    ensures { result ≡ shows_made what.now reply.now }
{
    match (what, reply) {
        (Change::Mark, Reply::Full { .. }) => false,
        (Change::Forget { .. }, Reply::NoMark { .. }) => false,
        (Change::Back { mark }, Reply::Back { mark: found, .. }) => mark == found,
        (Change::Back { .. }, _) => false,
        _ => true,
    }
}

impl Partition {
    /// A partition to which nothing has happened.
    pub(crate) fn new(alloc: Global) -> Partition
        ensures { result ≡ new_partition }
    {
        Partition {
            plain: Plain::new(alloc),
            places: 0,
        }
    }

    /// Makes one call of the plain list.
    pub(crate) fn apply(&mut self, alloc: Global, call: &Call) -> Result<Reply, Fault>
        requires room { HasRoom self.old.plain call.now }
        requires within { EndsWithin self.old.plain call.now }
        ensures step { IsStep self.old.plain call.now result self.new.plain }
        ensures places { self.new.places ≡ self.old.places }
        ensures err { IsOkUnless result Fault.NoMemory }
    {
        self.plain.apply(alloc, call)
    }

    /// Gives what a call gave its place. A call that reads takes one also where it met a fault.
    pub(crate) fn place(&mut self, reads: bool, given: Result<Reply, Fault>) -> Answer
        requires { self.old.places < 2 ^ 62 }
        ensures answer { result ≡ placed_answer reads given self.old.places }
        ensures plain { self.new.plain ≡ self.old.plain }
        ensures places { self.new.places ≡ places_behind (takes_place reads given) self.old.places }
    {
        if given.is_err() && !reads {
            return Answer {
                place: None,
                result: given,
            };
        }
        self.places += 1;
        Answer {
            place: Some(self.places),
            result: given,
        }
    }

    /// Makes the change of a record where the state allows it, and answers whether it does. Where it doesn't, and after an
    /// error, nothing is said of the partition.
    pub(crate) fn make(&mut self, alloc: Global, what: &Change) -> Result<bool, Fault>
        ensures room { IfOk result (λ made. HasRoom self.old.plain (call_for what.now)) }
        ensures allowed { IfOk result (λ made. made ≡ allows self.old.plain what.now) }
        ensures made { IfOk result (λ made. IsTrue made → self.new ≡ record { plain = after_change self.old.plain what.now; places = self.old.places }) }
        ensures err { IfErr result (λ f. (f ≡ Fault.NoMemory) ⊎ IsAtLimit self.old.plain (call_for what.now) f) }
    {
        // by this law the reply shows whether the state allows the change
        calls_make_the_allowed_changes();
        let call = call_for(what.copy(alloc)?);
        if let Some(kept) = self.plain.worn(&call) {
            return Err(Fault::Worn { kept });
        }
        let reply = self.plain.apply(alloc, &call)?;
        Ok(is_made(what, &reply))
    }
}
