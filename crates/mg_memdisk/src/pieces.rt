//! A piece of a log, while it is put together from what happened.

ghost use Rattle.std.specs.Prelude.{◌++◌, ℕ, List, [], OnOk};
ghost use Rattle.mg_memdisk.specs.Pieces.{Takes};

use std::alloc::{AllocError, Global};

/// Which bytes of a log are wanted: those from an offset on, and no more than so many.
#[derive(Clone, Copy)]
pub struct Wanted {
    pub at: u64,
    pub most: usize,
}

/// The wanted bytes of as much of a log as has gone by.
#[derive(Drop)]
pub struct Piece {
    pub items: Vec<u8>,
    // how many of the bytes to come stand before the offset
    before: u64,
}

impl Piece {
    /// The piece of a log of which nothing has gone by.
    pub fn new(alloc: Global, wanted: Wanted) -> Piece
        ensures { Takes wanted [] result }
    {
        Piece {
            items: Vec::new(alloc),
            before: wanted.at,
        }
    }

    /// The same piece of a log that begins anew.
    pub fn restart(&mut self, wanted: Wanted)
        ensures { Takes wanted [] self.new }
    {
        self.items.clear();
        self.before = wanted.at;
    }

    /// More bytes of the log go by: what is wanted of them is kept.
    pub fn add(&mut self, bytes: &[u8], wanted: Wanted) -> Result<(), AllocError>
        ensures { OnOk result ((gone : List ℕ) → Takes wanted gone self.old → Takes wanted (gone ++ bytes.now) self.new) }
    {
        let passed = (bytes.len() as u64).min(self.before) as usize;
        let rest = &bytes[passed..];
        let room = wanted.most.saturating_sub(self.items.len());
        self.before -= passed as u64;
        self.items.extend_from_slice(&rest[..room.min(rest.len())])
    }
}
