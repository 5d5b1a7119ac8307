//! A file of which the footer and the index are kept.

ghost use Rattle.std.specs.Prelude.{◌≡◌, ◌-◌, ◌<◌, ◌≤◌, ◌^◌, length, All, HoldsAt};
ghost use Rattle.mg_indexed.specs.Index.{AreRising, BeginUpTo};
ghost use Rattle.mg_indexed.specs.Loading.{IsKept};

use crate::footer::Footer;
use crate::handle::BlockHandle;
use crate::item::BlockItem;
use crate::key::BlockKey;
use mg_items::Items;
use mg_sealed::SealedFile;
use std::marker::{Model, PhantomData};

/// A sealed file of blocks, of which the footer and the index are kept, and no block.
#[derive(Drop)]
pub struct Indexed<S, K: BlockKey, T: BlockItem> {
    pub(crate) file: SealedFile<S>,
    pub(crate) footer: Footer,
    pub(crate) index: Items<BlockHandle<K>>,
    pub(crate) holds: PhantomData<T>,
}

impl<S, K: BlockKey, T: BlockItem> Model for Indexed<S, K, T> {
    ghost use Rattle.mg_indexed.specs.Loading.{IsKept, Loaded};

    ghost Value = { Loaded S K };

    ghost view = { λ f. record { file = f.file; footer = f.footer; index = f.index } };

    ghost invariant = { λ f. IsKept K.keys T.form f.footer f.index };
}

impl<S, K: BlockKey, T: BlockItem> Indexed<S, K, T> {
    /// The file.
    pub fn file(&self) -> &SealedFile<S>
        ensures { result.now ≡ self.now.file }
    {
        &self.file
    }

    /// What its footer says.
    pub fn footer(&self) -> &Footer
        ensures footer { result.now ≡ self.now.footer }
        ensures kept { IsKept K.keys T.form self.now.footer self.now.index }
    {
        &self.footer
    }

    /// The handles of its blocks, in their order. There is one, and first keys rise.
    pub fn handles(&self) -> &[BlockHandle<K>]
        ensures handles { result.now ≡ self.now.index }
        ensures some { 1 ≤ length self.now.index }
        ensures rising { AreRising K.keys self.now.index }
        ensures near { All (λ handle. handle.at < 2 ^ 62) self.now.index }
    {
        self.index.as_slice()
    }

    /// The file, its footer and its index.
    pub fn into_parts(self) -> (SealedFile<S>, Footer, Items<BlockHandle<K>>)
        ensures parts { result ≡ (self.file, self.footer, self.index) }
        ensures kept { IsKept K.keys T.form self.footer self.index }
    {
        (self.file, self.footer, self.index)
    }

    /// How many blocks begin up to a key. It looks at as many handles as their number has binary digits.
    pub fn blocks_up_to(&self, key: &K) -> usize
        ensures within { result ≤ length self.now.index }
        ensures point { BeginUpTo K.keys self.now.index key.now result }
    {
        blocks_up_to(self.index.as_slice(), key)
    }
}

/// A number of blocks, of which the last doesn't begin above this key, and behind which one follows that does.
fn blocks_up_to<K: BlockKey>(handles: &[BlockHandle<K>], key: &K) -> usize
    ensures within { result ≤ length handles.now }
    ensures last { 0 < result → HoldsAt (λ handle. K.keys.before key.now handle.first → ⊥) handles.now (result - 1) }
    ensures following { result < length handles.now → HoldsAt (λ handle. K.keys.before key.now handle.first) handles.now result }
{
    let mut low = 0;
    let mut high = handles.len();
    while low < high {
        let middle = low + (high - low) / 2;
        if key.is_before(&handles[middle].first) {
            high = middle;
        } else {
            low = middle + 1;
        }
    }
    low
}
