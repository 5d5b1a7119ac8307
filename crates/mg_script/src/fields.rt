//! The fields of a line, read from left to right.

ghost use Rattle.std.specs.Prelude.{◌≡◌, ◌==◌, [], ◌∷◌, MatchOption, ◌<◌, ◌≤◌, IfOk};
ghost use Rattle.mg_script.specs.declared.fields.LineError.TheVariants.{NoMemory};
ghost use Rattle.std.specs.List.{slice_split};
ghost use Rattle.mg_types.specs.declared.faults.Why.TheVariants as why;
ghost use Rattle.mg_script.specs.Tokens.{number_of};
ghost use Rattle.mg_script.specs.Script.{call_of, client_of, doc_of, Gives, IsSpoken, key_of, limit_of, no_more, part_of, take_field, verb_of};

use crate::pieces::cut;
use crate::tokens::{read_number, read_token};
use mg_model::{Call, Doc, Key, Why};
use std::alloc::{AllocError, Global};
use std::marker::Model;

/// Why a line is no call.
#[derive(Clone, Copy, Debug, PartialEq, Eq)]
pub enum LineError {
    NoMemory,
    /// The first field that is missing or wrong.
    Wrong(Why),
}

impl From<AllocError> for LineError {
    ghost from_gives = { λ _ error. error ≡ NoMemory };

    fn from(_error: AllocError) -> LineError {
        LineError::NoMemory
    }
}

/// What a line asks for.
#[derive(Clone, Copy, Debug, PartialEq, Eq)]
pub enum Verb {
    Set,
    Del,
    Get,
    Feed,
    Sync,
    Stats,
}

/// The fields of a line that are still to be read.
#[derive(Debug, Drop)]
pub struct Fields<'a> {
    /// What is left of the line, or `None` behind its last field.
    rest: Option<&'a [u8]>,
}

impl<'a> Model for Fields<'a> {
    ghost use Rattle.std.specs.Prelude.{List, ℕ};
    ghost use Rattle.std.specs.Coded.{coded_list, coded_ℕ};
    ghost use Rattle.mg_script.specs.Fields.{fields_left};

    ghost Value = { List (List ℕ) };

    ghost coded = { coded_list (coded_list coded_ℕ) };

    ghost view = { λ f. fields_left f.rest };
}

impl<'a> Fields<'a> {
    pub fn of(line: &'a [u8]) -> Fields<'a>
        ensures { result ≡ slice_split (λ b. b == 32) line.now }
    {
        Fields { rest: Some(line) }
    }

    /// The next field.
    pub fn next(&mut self) -> Option<&'a [u8]>
        ensures { MatchOption result ((self.old ≡ []) × (self.new ≡ [])) (λ field. self.old ≡ field.now ∷ self.new) }
    {
        let (field, rest) = cut(self.rest?, b' ');
        self.rest = rest;
        Some(field)
    }

    /// The client's number.
    #[tactic(auto, unfolding(crate::specs::Script::take_field))]
    pub fn client(&mut self) -> Result<u8, LineError>
        ensures field { Gives (λ client. (client, self.new)) result (take_field why.Client client_of self.old) }
        ensures bound { IfOk result (λ client. client < 16) }
    {
        let field = self.next().ok_or(LineError::Wrong(Why::Client))?;
        match read_number(field) {
            Some(client) if client < CLIENTS => Ok(client as u8),
            _ => Err(LineError::Wrong(Why::Client)),
        }
    }

    /// What the line asks for.
    #[tactic(auto, unfolding(crate::specs::Script::take_field))]
    pub fn verb(&mut self) -> Result<Verb, LineError>
        ensures { Gives (λ verb. (verb, self.new)) result (take_field why.Verb verb_of self.old) }
    {
        let field = self.next().ok_or(LineError::Wrong(Why::Verb))?;
        read_verb(field).ok_or(LineError::Wrong(Why::Verb))
    }

    /// The number of one of so many partitions.
    #[tactic(auto, unfolding(crate::specs::Script::take_field))]
    pub fn part(&mut self, parts: u16) -> Result<u16, LineError>
        ensures field { Gives (λ part. (part, self.new)) result (take_field why.Part (part_of parts) self.old) }
        ensures bound { IfOk result (λ part. part < parts) }
    {
        let field = self.next().ok_or(LineError::Wrong(Why::Part))?;
        match read_number(field) {
            Some(part) if part < u64::from(parts) => Ok(part as u16),
            _ => Err(LineError::Wrong(Why::Part)),
        }
    }

    #[tactic(auto, unfolding(crate::specs::Script::take_field))]
    fn key(&mut self, alloc: Global) -> Result<Key, LineError>
        ensures { Gives (λ key. (key, self.new)) result (take_field why.Key key_of self.old) }
    {
        let field = self.next().ok_or(LineError::Wrong(Why::Key))?;
        match read_token(alloc, field)? {
            Some(bytes) => Key::from_vec(bytes).ok_or(LineError::Wrong(Why::Key)),
            None => Err(LineError::Wrong(Why::Key)),
        }
    }

    #[tactic(auto, unfolding(crate::specs::Script::take_field))]
    fn doc(&mut self, alloc: Global) -> Result<Doc, LineError>
        ensures { Gives (λ doc. (doc, self.new)) result (take_field why.Doc doc_of self.old) }
    {
        let field = self.next().ok_or(LineError::Wrong(Why::Doc))?;
        match read_token(alloc, field)? {
            Some(bytes) => Doc::from_vec(bytes).ok_or(LineError::Wrong(Why::Doc)),
            None => Err(LineError::Wrong(Why::Doc)),
        }
    }

    #[tactic(auto, unfolding(crate::specs::Script::take_field))]
    fn number(&mut self) -> Result<u64, LineError>
        ensures { Gives (λ number. (number, self.new)) result (take_field why.Number number_of self.old) }
    {
        let field = self.next().ok_or(LineError::Wrong(Why::Number))?;
        read_number(field).ok_or(LineError::Wrong(Why::Number))
    }

    /// How many items a feed may have: 1 to 1,000.
    #[tactic(auto, unfolding(crate::specs::Script::take_field))]
    fn limit(&mut self) -> Result<u16, LineError>
        ensures field { Gives (λ limit. (limit, self.new)) result (take_field why.Number limit_of self.old) }
        ensures bound { IfOk result (λ limit. (1 ≤ limit) × (limit ≤ 1000)) }
    {
        let field = self.next().ok_or(LineError::Wrong(Why::Number))?;
        match read_number(field) {
            Some(limit) if 1 <= limit && limit <= FEED_LIMIT => Ok(limit as u16),
            _ => Err(LineError::Wrong(Why::Number)),
        }
    }

    /// The call of a verb.
    #[tactic(auto, unfolding(crate::specs::Script::call_of))]
    pub fn call(&mut self, alloc: Global, verb: Verb) -> Result<Call, LineError>
        ensures field { Gives (λ call. (call, self.new)) result (call_of verb self.old) }
        ensures spoken { IfOk result IsSpoken }
    {
        match verb {
            Verb::Set => {
                let key = self.key(alloc)?;
                let doc = self.doc(alloc)?;
                Ok(Call::Set { key, doc })
            }
            Verb::Del => {
                let key = self.key(alloc)?;
                Ok(Call::Del { key })
            }
            Verb::Get => {
                let key = self.key(alloc)?;
                Ok(Call::Get { key })
            }
            Verb::Feed => {
                let epoch = self.number()?;
                let after = self.number()?;
                let limit = self.limit()?;
                Ok(Call::Feed {
                    epoch,
                    after,
                    limit,
                })
            }
            Verb::Sync => Ok(Call::Sync),
            Verb::Stats => Ok(Call::Stats),
        }
    }

    /// That no field is left.
    pub fn end(&mut self) -> Result<(), LineError>
        ensures { Gives (λ _. []) result (no_more self.old) }
    {
        match self.next() {
            Some(_) => Err(LineError::Wrong(Why::Extra)),
            None => Ok(()),
        }
    }
}

fn read_verb(field: &[u8]) -> Option<Verb>
    ensures { result ≡ verb_of field.now }
{
    if field == b"set".as_slice() {
        Some(Verb::Set)
    } else if field == b"del".as_slice() {
        Some(Verb::Del)
    } else if field == b"get".as_slice() {
        Some(Verb::Get)
    } else if field == b"feed".as_slice() {
        Some(Verb::Feed)
    } else if field == b"sync".as_slice() {
        Some(Verb::Sync)
    } else if field == b"stats".as_slice() {
        Some(Verb::Stats)
    } else {
        None
    }
}

/// The most items of one feed.
const FEED_LIMIT: u64 = 1000;

/// Clients have the numbers from 0 to 15.
const CLIENTS: u64 = 16;
