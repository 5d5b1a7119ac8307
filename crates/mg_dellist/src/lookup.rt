//! Numbers in a block, without a copy.

ghost use Rattle.std.specs.Prelude.{◌↔◌, IsTrue};
ghost use Rattle.mg_dellist.specs.Lookup.{HasNumber};

use mg_frame::get_u64;

/// The bytes of an entry.
pub const DEAD_LEN: usize = 12;

/// Whether one of the whole entries of 12 bytes, of which a block is made, has this number. Bytes behind the last whole
/// entry are not looked at.
///
/// Takes no memory. Looks at each entry, in whatever order they stand, up to one with the number.
pub fn has(block: &[u8], seq: u64) -> bool
    ensures { IsTrue result ↔ HasNumber block.now seq }
{
    for index in 0..block.len() / DEAD_LEN {
        if get_u64(block, index * DEAD_LEN) == Some(seq) {
            return true;
        }
    }
    false
}
