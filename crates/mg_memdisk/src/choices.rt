//! What a crash picks.

ghost use Rattle.std.specs.Prelude.{◌≡◌, ◌==◌, Some, None, if◌then◌else◌, drop, IfOk, OnOk};
ghost use Rattle.mg_memdisk.specs.Crashes.{first, tail_of, after_tail};

use std::alloc::{AllocError, Global};

/// What a crash picks, byte by byte. Behind its end each byte is 0.
#[derive(Drop)]
pub struct Choice<'a> {
    pub rest: &'a [u8],
}

impl<'a> Choice<'a> {
    /// The next byte.
    pub fn pick(&mut self) -> u8
        ensures byte { result ≡ first self.old.rest.now }
        ensures rest { self.new.rest.now ≡ drop 1 self.old.rest.now }
    {
        match self.rest.split_first() {
            Some((byte, rest)) => {
                self.rest = rest;
                *byte
            }
            None => 0,
        }
    }

    // The next byte behind a log, where a 1 stands before it.
    fn pick_behind(&mut self) -> Option<u8>
        ensures byte { result ≡ (if first self.old.rest.now == 1 then Some (first (drop 1 self.old.rest.now)) else None) }
        ensures rest { self.new.rest.now ≡ (if first self.old.rest.now == 1 then drop 2 self.old.rest.now else drop 1 self.old.rest.now) }
    {
        if self.pick() == 1 {
            Some(self.pick())
        } else {
            None
        }
    }

    /// Bytes behind a log, at most so many: before each a byte 1 is picked, and any other byte ends them.
    pub fn pick_tail(&mut self, alloc: Global, most: usize) -> Result<Vec<u8>, AllocError>
        ensures bytes { IfOk result (λ bytes. bytes.items ≡ tail_of most self.old.rest.now) }
        ensures rest { OnOk result (self.new.rest.now ≡ after_tail most self.old.rest.now) }
    {
        let mut bytes = Vec::new(alloc);
        while bytes.len() < most {
            match self.pick_behind() {
                Some(byte) => bytes.push(byte)?,
                None => return Ok(bytes),
            }
        }
        Ok(bytes)
    }
}
