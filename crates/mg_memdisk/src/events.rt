//! What happened to a volume.

ghost use Rattle.std.specs.Prelude.{◌≡◌};
ghost use Rattle.mg_memdisk.specs.Crashes.{name_of};

use crate::bytes::Bytes;
use mg_disk::Name;
use std::sync::Arc;

/// What happened to a volume, as far as its contents and a crash go.
#[derive(Drop)]
pub enum Event {
    /// The name stands for these bytes, or for nothing.
    Put(Name, Option<Arc<Bytes>>),
    /// The same, but the call failed: a crash may show it or not. Reads show it where the flag says so.
    MayPut(Name, Option<Arc<Bytes>>, bool),
    /// These bytes were put behind the log's.
    Append(Name, Bytes),
    /// The log was made lasting.
    Sync(Name),
}

impl Event {
    /// The name that it is about.
    pub fn name(&self) -> Name
        ensures { result ≡ name_of self.now }
    {
        match self {
            Event::Put(name, _)
            | Event::MayPut(name, _, _)
            | Event::Append(name, _)
            | Event::Sync(name) => *name,
        }
    }
}
