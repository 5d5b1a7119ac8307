//! A table as it is kept in memory.

ghost use Rattle.std.specs.Prelude.{◌≡◌, ◌≤◌, ℕ, List, length, Option};
ghost use Rattle.mg_table.specs.Table.{Represents};
ghost use Rattle.mg_types.specs.declared.items.Entry.{Entry};

use mg_bloom::Filter;
use mg_indexed::Indexed;
use mg_sealed::SealedFile;
use mg_types::{Entry, Key};

/// A sealed file of entries, of which the footer, the index and the filter are kept in memory, and no block.
#[derive(Drop)]
pub struct Table<S> {
    pub(crate) indexed: Indexed<S, Key, Entry>,
    pub(crate) filter: Filter,
}

impl<S> Table<S> {
    /// The file itself, with what faults call it and its length.
    pub fn sealed(&self) -> &SealedFile<S>
        ensures { result.now ≡ self.now.indexed.file }
    {
        self.indexed.file()
    }

    /// The number of entries.
    pub fn count(&self) -> u64
        ensures { result ≡ self.now.indexed.footer.count }
    {
        self.indexed.footer().count
    }

    /// The sum of the entries' sizes.
    pub fn bytes(&self) -> u64
        ensures { result ≡ self.now.indexed.footer.sum }
    {
        self.indexed.footer().sum
    }

    /// How many blocks the file has.
    pub fn blocks(&self) -> usize
        ensures index { result ≡ length self.now.indexed.index }
        ensures some { 1 ≤ result }
        ensures entries { (told : S → Option (List ℕ)) (entries : List Entry) → (stands : Represents told self.now entries) → result ≡ length stands.blocks }
    {
        self.indexed.handles().len()
    }

    /// The interval of sequence numbers, above the first and up to the second, which the writer was given as a label of the table.
    pub fn span(&self) -> (u64, u64)
        ensures { result ≡ (self.now.indexed.footer.low, self.now.indexed.footer.high) }
    {
        let footer = self.indexed.footer();
        (footer.low, footer.high)
    }
}
