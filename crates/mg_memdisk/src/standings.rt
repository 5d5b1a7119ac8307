//! What a name stands for while an image is picked.

ghost use Rattle.std.specs.Prelude.{◌≤◌, length};
ghost use Rattle.mg_disk.specs.Images.{bytes_of};
ghost use Rattle.mg_memdisk.specs.Optional.{items_of};

use crate::bytes::Bytes;
use crate::optional::{changed, copied, emptied, front, joined, len_of, longer};
use std::alloc::{AllocError, Global};
use std::sync::Arc;

/// What reads give of a name, and what a crash leaves of it: the first `kept` bytes of that, and a tail of its own.
#[derive(Drop)]
pub struct Standing {
    given: Option<Vec<u8>>,
    kept: usize,
    // None where the crash leaves no such name
    tail: Option<Vec<u8>>,
    ghost within: { kept ≤ length (bytes_of (items_of given)) },
}

impl Standing {
    ghost use Rattle.std.specs.Prelude.{◌≡◌, None, if◌then◌else◌, IfOk, length};
    ghost use Rattle.mg_disk.specs.Files.{extended};
    ghost use Rattle.mg_memdisk.specs.Crashes.{room};
    ghost use Rattle.mg_memdisk.specs.Events.{value_bytes};
    ghost use Rattle.mg_memdisk.specs.Optional.{items_of};
    ghost use Rattle.mg_memdisk.specs.Standings.{now_of, left_of};

    /// A name that is not there.
    pub fn absent() -> Standing
        ensures now { now_of result ≡ None }
        ensures left { left_of result ≡ None }
    {
        Standing {
            given: None,
            kept: 0,
            tail: None,
        }
    }

    /// The same, but a crash leaves what reads give.
    pub fn synced(self, alloc: Global) -> Standing
        ensures now { now_of result ≡ now_of self }
        ensures left { left_of result ≡ now_of self }
    {
        let kept = len_of(&self.given);
        let tail = emptied(alloc, &self.given);
        Standing {
            given: self.given,
            kept,
            tail,
        }
    }

    /// These bytes or nothing, also after a crash.
    pub fn put(alloc: Global, value: &Option<Arc<Bytes>>) -> Result<Standing, AllocError>
        ensures now { IfOk result (λ put. now_of put ≡ value_bytes value.now) }
        ensures left { IfOk result (λ put. left_of put ≡ value_bytes value.now) }
    {
        let given = copied(alloc, value)?;
        let put = Standing {
            given,
            kept: 0,
            tail: None,
        };
        Ok(put.synced(alloc))
    }

    /// These bytes or nothing, in what reads give and in what a crash leaves, each only if it is so said.
    pub fn doubted(
        self,
        alloc: Global,
        value: &Option<Arc<Bytes>>,
        shown: bool,
        left: bool,
    ) -> Result<Standing, AllocError>
        ensures now { IfOk result (λ doubted. now_of doubted ≡ (if shown then value_bytes value.now else now_of self)) }
        ensures left { IfOk result (λ doubted. left_of doubted ≡ (if left then value_bytes value.now else left_of self)) }
    {
        let Standing { given, kept, tail } = self;
        let before = joined(alloc, &given, kept, tail)?;
        let tail = changed(alloc, before, value, left)?;
        let given = changed(alloc, given, value, shown)?;
        Ok(Standing {
            given,
            kept: 0,
            tail,
        })
    }

    /// More bytes behind what reads give, and others behind what a crash leaves.
    pub fn grown(self, bytes: &[u8], behind: &[u8]) -> Result<Standing, AllocError>
        ensures now { IfOk result (λ grown. now_of grown ≡ extended (now_of self) bytes.now) }
        ensures left { IfOk result (λ grown. left_of grown ≡ extended (left_of self) behind.now) }
    {
        let given = longer(self.given, bytes)?;
        let tail = longer(self.tail, behind)?;
        Ok(Standing {
            given,
            kept: self.kept,
            tail,
        })
    }

    /// How many bytes a crash may put behind what it leaves, when these are appended.
    pub fn room(&self, bytes: &[u8]) -> usize
        ensures { result ≡ room (now_of self.now) (left_of self.now) bytes.now }
    {
        (len_of(&self.given) + bytes.len()).saturating_sub(self.left_len())
    }

    // The length of what a crash leaves.
    fn left_len(&self) -> usize
        ensures { result ≡ length (bytes_of (left_of self.now)) }
    {
        match &self.tail {
            Some(tail) => self.kept + tail.len(),
            None => 0,
        }
    }

    /// What a crash leaves.
    pub fn left(&self, alloc: Global) -> Result<Option<Vec<u8>>, AllocError>
        ensures { IfOk result (λ left. items_of left ≡ left_of self.now) }
    {
        match &self.tail {
            Some(tail) => {
                let mut left = front(alloc, &self.given, self.kept)?;
                left.extend_from_slice(tail)?;
                Ok(Some(left))
            }
            None => Ok(None),
        }
    }
}
