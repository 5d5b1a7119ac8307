//! The bits of a body, and the bits of hashed words in it.

ghost use Rattle.std.specs.Prelude.{◌≡◌, ◌+◌, ◌*◌, ◌%◌, ◌<◌, ◌==◌, ◌||◌, ℕ, length};
ghost use Rattle.std.specs.Int.{IsPowerOfTwo};
ghost use Rattle.mg_bloom.specs.Bloom.{bit_count, has_bit, has_words, place_of, AddsWords, IsBodyLength};

/// The place of a word's bit. The number of bits is a power of two, so a mask takes the remainder.
fn place_of(word: u32, body: &[u8]) -> usize
    requires { IsBodyLength (length body.now) }
    ensures place { result ≡ place_of word body.now }
    ensures within { result < bit_count body.now }
{
    word as usize & (8 * body.len() - 1)
}

fn has_bit(body: &[u8], place: usize) -> bool
    requires { place < bit_count body.now }
    ensures { result ≡ has_bit body.now place }
{
    body[place / 8] >> (place % 8) & 1 == 1
}

fn set_bit(body: &mut [u8], place: usize)
    requires { place < bit_count body.old }
    ensures length { length body.new ≡ length body.old }
    ensures bits { (p : ℕ) → has_bit body.new p ≡ (has_bit body.old p || (place == p)) }
{
    body[place / 8] |= 1 << (place % 8);
}

fn has_word(body: &[u8], word: u32) -> bool
    requires { IsBodyLength (length body.now) }
    ensures { result ≡ has_bit body.now (place_of word body.now) }
{
    has_bit(body, place_of(word, body))
}

/// Whether the body has the bit of each word.
#[tactic(auto, unfolding(crate::specs::Bloom::has_words))]
pub(crate) fn has_words(body: &[u8], words: &[u32]) -> bool
    requires { IsBodyLength (length body.now) }
    ensures { result ≡ has_words body.now words.now }
{
    words.iter().all(|word| has_word(body, *word))
}

/// Sets the bit of each word.
pub(crate) fn set_words(body: &mut [u8], words: &[u32])
    requires { IsBodyLength (length body.old) }
    ensures { AddsWords body.old body.new words.now }
{
    for word in words {
        let place = place_of(*word, body);
        set_bit(body, place);
    }
}
