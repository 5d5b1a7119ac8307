//! What the blocks of a file hold.

ghost use Rattle.std.specs.Prelude.{◌≡◌, ◌↔◌, IsTrue};
ghost use Rattle.mg_indexed.specs.Forms.{Form, IsFrameLength};

use mg_frame::FRAME_OVERHEAD;
use mg_sealed::BLOCK_LIMIT;
use mg_types::{Dead, Entry, Item};

/// What the blocks of a file hold, each in a frame of its own. Its type tells kinds of files apart.
pub trait BlockItem {
    /// All that contracts say of the kind of files.
    ghost form: { Form };

    /// Whether a block's whole frame may have so many bytes.
    fn is_frame_len(len: u32) -> bool
        ensures { IsTrue result ↔ IsFrameLength form len };

    /// Whether a filter's frame stands between the index and the footer.
    fn has_filter() -> bool
        ensures { result ≡ form.filtered };
}

/// The whole length of the frame of the shortest entry, of a key of one byte.
const LEAST_OF_TABLES: u32 = 37;

/// Tables.
impl BlockItem for Entry {
    ghost use Rattle.mg_indexed.specs.Forms.{table_form};

    ghost form = { table_form };

    fn is_frame_len(len: u32) -> bool {
        LEAST_OF_TABLES <= len && len as usize <= BLOCK_LIMIT + FRAME_OVERHEAD
    }

    fn has_filter() -> bool {
        true
    }
}

/// The whole length of the frame of the shortest record, a delete of a key of one byte.
const LEAST_OF_SEGMENTS: u32 = 31;

/// The whole length of the frame of the longest record, a set of the longest key to the longest document.
const MOST_OF_SEGMENTS: u32 = 1_048_860;

/// Segments.
impl BlockItem for Item {
    ghost use Rattle.mg_indexed.specs.Forms.{segment_form};

    ghost form = { segment_form };

    fn is_frame_len(len: u32) -> bool {
        LEAST_OF_SEGMENTS <= len && len <= MOST_OF_SEGMENTS
    }

    fn has_filter() -> bool {
        false
    }
}

/// The whole length of the frame of one record of a delete list.
const LEAST_OF_LISTS: u32 = 32;

/// The whole length of the frame of a full block.
const MOST_OF_LISTS: u32 = 4_116;

/// Delete lists.
impl BlockItem for Dead {
    ghost use Rattle.mg_indexed.specs.Forms.{list_form};

    ghost form = { list_form };

    fn is_frame_len(len: u32) -> bool {
        LEAST_OF_LISTS <= len && len <= MOST_OF_LISTS
    }

    fn has_filter() -> bool {
        false
    }
}
