ghost use Rattle.std.specs.Prelude.{◌≡◌, ◌+◌, ◌≤◌, [], ◌++◌, length, take};
ghost use Rattle.mg_block.specs.Block.{shared_len};

use std::marker::Model;

/// The most bytes that a key has.
pub const KEY_LIMIT: usize = 250;

/// The most bytes that a payload has.
pub const PAYLOAD_LIMIT: usize = 255;

/// A key of at most 250 bytes, kept in place.
#[derive(Drop)]
pub struct KeyBuffer {
    bytes: [u8; KEY_LIMIT],
    len: usize,
}

impl Model for KeyBuffer {
    ghost use Rattle.std.specs.Prelude.{◌≤◌, List, take, ℕ};

    ghost Value = { List ℕ };

    ghost view = { λ key. take key.len key.bytes };

    ghost invariant = { λ key. key.len ≤ 250 };
}

impl KeyBuffer {
    pub fn new() -> Self
        ensures { result ≡ [] }
    {
        KeyBuffer {
            bytes: [0; KEY_LIMIT],
            len: 0,
        }
    }

    pub fn as_slice(&self) -> &[u8]
        ensures value { result.now ≡ self.now }
        ensures bound { length result.now ≤ 250 }
    {
        &self.bytes[..self.len]
    }

    /// Keeps the first `shared` bytes, and puts the rest behind them.
    pub fn replace_end(&mut self, shared: usize, rest: &[u8])
        requires within { shared ≤ length self.old }
        requires fits { shared + length rest.now ≤ 250 }
        ensures { self.new ≡ take shared self.old ++ rest.now }
    {
        let len = shared + rest.len();
        self.bytes[shared..len].copy_from_slice(rest);
        self.len = len;
    }
}

/// How many bytes two keys share at their front.
pub fn shared_len(key: &[u8], other: &[u8]) -> usize
    ensures shared { result ≡ shared_len key.now other.now }
    ensures within { result ≤ length key.now }
    ensures within_other { result ≤ length other.now }
{
    let mut len = 0;
    while len < key.len() && len < other.len() && key[len] == other[len] {
        len += 1;
    }
    len
}
