//! Bytes, cut at a separator.

ghost use Rattle.std.specs.Prelude.{◌≡◌, ◌==◌, ◌+◌, ◌<◌, [], ◌∷◌, length, IfSome, MatchOption};
ghost use Rattle.std.specs.List.{slice_split};

use memchr::memchr;

/// Some bytes up to the first separator, and what stands behind that separator, if there is one.
pub fn cut(bytes: &[u8], separator: u8) -> (&[u8], Option<&[u8]>)
    ensures pieces { MatchOption result.1 (slice_split (λ b. b == separator) bytes.now ≡ result.0.now ∷ [])
        (λ rest. slice_split (λ b. b == separator) bytes.now ≡ result.0.now ∷ slice_split (λ b. b == separator) rest.now) }
    ensures shorter { IfSome result.1 (λ rest. length result.0.now + length rest.now < length bytes.now) }
{
    match memchr(separator, bytes) {
        Some(place) => {
            let (piece, rest) = bytes.split_at(place);
            let (_, rest) = rest.split_at(1);
            (piece, Some(rest))
        }
        None => (bytes, None),
    }
}
