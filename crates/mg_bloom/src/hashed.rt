//! A key as filters see it.

ghost use Rattle.std.specs.Prelude.{◌≡◌, ◌+◌, ◌*◌, ◌<◌, ◌≤◌, List, ℕ, length};
ghost use Rattle.mg_bloom.specs.Bloom.{digest_word, key_words};

use sha2::{Digest, Sha256};
use std::marker::Model;

/// A key that was hashed once, with which any number of filters can be asked.
#[derive(Drop)]
pub struct HashedKey {
    words: [u32; 7],
}

impl Model for HashedKey {
    ghost Value = { List ℕ };

    ghost view = { λ k. k.words };
}

fn digest_word(digest: &[u8], i: usize) -> u32
    requires { 4 * i + 4 ≤ length digest.now }
    ensures { result ≡ digest_word digest.now i }
{
    u32::from_be_bytes(*digest[4 * i..].first_chunk().unwrap())
}

impl HashedKey {
    /// Hashes the key with SHA-256 (FIPS 180-4), of which a filter uses the first seven words.
    pub fn new(key: &[u8]) -> HashedKey
        ensures { result ≡ key_words key.now }
    {
        let digest = Sha256::digest(key);
        let word = |i: usize| -> u32
            requires { i < 7 }
            ensures { result ≡ digest_word digest i }
        { digest_word(&digest, i) };
        HashedKey {
            words: [
                word(0),
                word(1),
                word(2),
                word(3),
                word(4),
                word(5),
                word(6),
            ],
        }
    }

    pub(crate) fn words(&self) -> &[u32]
        ensures { result.now ≡ self.now }
    {
        &self.words
    }
}
