//! Laws of footers and indexes. Each function does nothing: its contract is the law.

ghost use Rattle.mg_indexed.specs.Laws.{OneFooter, OneIndex};

use crate::item::BlockItem;
use crate::key::BlockKey;

/// Bytes are the body of one footer.
pub const fn one_footer()
    ensures { OneFooter }
{}

/// Bytes are the body of one index.
pub fn one_index<K: BlockKey, T: BlockItem>()
    ensures { OneIndex K.keys T.form }
{}
