//! A body folded into a smaller one. Places are remainders by a power of two, so the bit at a place of the half is set where
//! the bit at that place of one of the two halves is.

ghost use Rattle.std.specs.Prelude.{◌≡◌, ◌+◌, ◌*◌, ◌<◌, ◌≤◌, ℕ, length, slice_index};
ghost use Rattle.std.specs.Int.Bits.{bit_or};
ghost use Rattle.mg_bloom.specs.Bloom.{IsBodyLength};
ghost use Rattle.mg_bloom.specs.Folding.{KeepsWords};

/// Sets in the lower half of a body the bits of the upper one.
fn join_halves(body: &mut [u8], half: usize)
    requires { length body.old ≡ 2 * half }
    ensures length { length body.new ≡ length body.old }
    ensures bytes { (i : ℕ) → i < half → slice_index body.new i ≡ bit_or (slice_index body.old i) (slice_index body.old (half + i)) }
{
    for at in 0..half {
        body[at] |= body[half + at];
    }
}

/// Folds a body in half.
fn halve(body: &mut Vec<u8>)
    requires length { IsBodyLength (length body.old.items) }
    requires more { 8 < length body.old.items }
    ensures half { length body.old.items ≡ 2 * length body.new.items }
    ensures words { KeepsWords body.old.items body.new.items }
{
    let half = body.len() / 2;
    join_halves(body, half);
    body.truncate(half);
}

/// Folds a body in halves until it has so many bytes.
pub(crate) fn fold_to(body: &mut Vec<u8>, bytes: usize)
    requires length { IsBodyLength (length body.old.items) }
    requires bytes { IsBodyLength bytes }
    requires fits { bytes ≤ length body.old.items }
    ensures length { length body.new.items ≡ bytes }
    ensures words { KeepsWords body.old.items body.new.items }
{
    while bytes < body.len() {
        halve(body);
    }
}
