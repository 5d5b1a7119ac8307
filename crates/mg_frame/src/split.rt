//! The field at the front of bytes, and what follows it.

ghost use Rattle.std.specs.Prelude.{◌≡◌, ℕ, ◌<◌, ◌^◌, List, ◌++◌, length, IfSome, IsSome};
ghost use Rattle.mg_frame.specs.BigEndian.{big_endian, counted};

use crate::fields::{get_u8, get_u16, get_u32, get_u64};

/// The byte at the front, and what follows it.
pub fn split_u8(bytes: &[u8]) -> Option<(u8, &[u8])>
    ensures split { IfSome result (λ split. bytes.now ≡ big_endian 1 split.0 ++ split.1.now) }
    ensures written { (number : ℕ) (rest : List ℕ) → number < 2 ^ 8 → bytes.now ≡ big_endian 1 number ++ rest →
        IsSome result × IfSome result (λ split. (split.0 ≡ number) × (split.1.now ≡ rest)) }
{
    let number = get_u8(bytes, 0)?;
    Some((number, &bytes[1..]))
}

/// The number in the two bytes at the front, the highest first, and what follows it.
pub fn split_u16(bytes: &[u8]) -> Option<(u16, &[u8])>
    ensures split { IfSome result (λ split. bytes.now ≡ big_endian 2 split.0 ++ split.1.now) }
    ensures written { (number : ℕ) (rest : List ℕ) → number < 2 ^ 16 → bytes.now ≡ big_endian 2 number ++ rest →
        IsSome result × IfSome result (λ split. (split.0 ≡ number) × (split.1.now ≡ rest)) }
{
    let number = get_u16(bytes, 0)?;
    Some((number, &bytes[2..]))
}

/// The number in the four bytes at the front, the highest first, and what follows it.
pub fn split_u32(bytes: &[u8]) -> Option<(u32, &[u8])>
    ensures split { IfSome result (λ split. bytes.now ≡ big_endian 4 split.0 ++ split.1.now) }
    ensures written { (number : ℕ) (rest : List ℕ) → number < 2 ^ 32 → bytes.now ≡ big_endian 4 number ++ rest →
        IsSome result × IfSome result (λ split. (split.0 ≡ number) × (split.1.now ≡ rest)) }
{
    let number = get_u32(bytes, 0)?;
    Some((number, &bytes[4..]))
}

/// The number in the eight bytes at the front, the highest first, and what follows it.
pub fn split_u64(bytes: &[u8]) -> Option<(u64, &[u8])>
    ensures split { IfSome result (λ split. bytes.now ≡ big_endian 8 split.0 ++ split.1.now) }
    ensures written { (number : ℕ) (rest : List ℕ) → number < 2 ^ 64 → bytes.now ≡ big_endian 8 number ++ rest →
        IsSome result × IfSome result (λ split. (split.0 ≡ number) × (split.1.now ≡ rest)) }
{
    let number = get_u64(bytes, 0)?;
    Some((number, &bytes[8..]))
}

/// The byte list behind the count of its bytes, which is the byte at the front, and what follows it. It is not copied.
#[tactic(auto, unfolding(crate::specs::BigEndian::counted))]
pub fn split_short(bytes: &[u8]) -> Option<(&[u8], &[u8])>
    ensures split { IfSome result (λ split. bytes.now ≡ counted 1 split.0.now ++ split.1.now) }
    ensures bound { IfSome result (λ split. length split.0.now < 2 ^ 8) }
    ensures written { (list rest : List ℕ) → length list < 2 ^ 8 → bytes.now ≡ counted 1 list ++ rest →
        IsSome result × IfSome result (λ split. (split.0.now ≡ list) × (split.1.now ≡ rest)) }
{
    let (count, bytes) = split_u8(bytes)?;
    let count = usize::from(count);
    if bytes.len() < count {
        return None;
    }
    Some(bytes.split_at(count))
}

/// The byte list behind the count of its bytes, which is the number in the four bytes at the front, and what follows it. It
/// is not copied.
#[tactic(auto, unfolding(crate::specs::BigEndian::counted))]
pub fn split_long(bytes: &[u8]) -> Option<(&[u8], &[u8])>
    ensures split { IfSome result (λ split. bytes.now ≡ counted 4 split.0.now ++ split.1.now) }
    ensures bound { IfSome result (λ split. length split.0.now < 2 ^ 32) }
    ensures written { (list rest : List ℕ) → length list < 2 ^ 32 → bytes.now ≡ counted 4 list ++ rest →
        IsSome result × IfSome result (λ split. (split.0.now ≡ list) × (split.1.now ≡ rest)) }
{
    let (count, bytes) = split_u32(bytes)?;
    let count = count as usize;
    if bytes.len() < count {
        return None;
    }
    Some(bytes.split_at(count))
}
