//! Limits of the numbers that files keep.

ghost use Rattle.std.specs.Prelude.{◌↔◌, IsTrue};
ghost use Rattle.mg_types.specs.Limits.{IsNumber, IsSeq, IsSize};

/// Every number that a file keeps is below this one.
pub const NUMBER_LIMIT: u64 = 1 << 62;

/// The greatest sequence number that a call gives a mutation.
pub const SEQ_LIMIT: u64 = (1 << 40) - 1;

/// The greatest size of a mutation in bytes: the longest key and the longest document.
pub const MAX_SIZE: u32 = 1_048_826;

/// Whether a file may keep the number.
pub fn is_number(number: u64) -> bool
    ensures { IsTrue result ↔ IsNumber number }
{
    number < NUMBER_LIMIT
}

/// Whether a file may keep it as a sequence number. These begin at 1.
pub fn is_seq(seq: u64) -> bool
    ensures { IsTrue result ↔ IsSeq seq }
{
    1 <= seq && seq < NUMBER_LIMIT
}

/// Whether a mutation may have so many bytes in its key and document together.
pub fn is_size(size: u32) -> bool
    ensures { IsTrue result ↔ IsSize size }
{
    1 <= size && size <= MAX_SIZE
}
