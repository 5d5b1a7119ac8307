//! Blocks of a table are read one at a time.

ghost use Rattle.std.specs.Prelude.{◌≡◌, ◌<◌, ◌⊎◌, List, length, IfErr, IfOk, IfSome, MatchResult};
ghost use Rattle.mg_faults.specs.Causes.{CountsOnce, HasCause};
ghost use Rattle.mg_sealed.specs.Answers.{IsOutside};
ghost use Rattle.mg_table.specs.Pages.{IsPage, IsPageOf, IsPageRead, IsPageUnfit};
ghost use Rattle.mg_table.specs.Reading.{HasUnfit, IsBlockRefused};
ghost use Rattle.mg_table.specs.Table.{Represents};
ghost use Rattle.mg_types.specs.declared.items.Entry.{Entry};

use crate::checks::check_page;
use crate::reading::list_block;
use crate::table::Table;
use mg_items::Items;
use mg_sealed::Blocks;
use mg_types::{Entry, Fault};
use std::alloc::Global;
use std::mem;

impl<S: Drop> Table<S> {
    /// The entries of one block, from 0 on, in rising order of their keys.
    ///
    /// It reads that block alone, into a buffer that is lent, and takes memory for its entries. The blocks in turn are what a scan
    /// lists. A block is judged by itself and by the index: whether its first entry had room in the block before is not asked, nor
    /// what the footer counts. After an error the buffer may be empty.
    pub fn page<F: Blocks<Sealed = S>>(
        &self,
        alloc: Global,
        port: &mut F,
        number: usize,
        buffer: &mut Vec<u8>,
    ) -> Result<Items<Entry>, Fault>
        requires { number < length self.now.indexed.index }
        ensures page { IfSome (F.Files.told self.now.indexed.file.file) (λ _. (entries : List Entry) → (stands : Represents F.Files.told self.now entries) →
            MatchResult result (λ page. IsPage stands.blocks number page) (λ fault. IsOutside fault)) }
        ensures right { IfOk result (λ page. IsPageOf self.now number page) }
        ensures read { IfOk result (λ page. IfSome (F.Files.told self.now.indexed.file.file) (λ bytes. self.now.indexed.file.len ≡ length bytes →
            IsPageRead self.now bytes number page)) }
        ensures refusals { IfErr result (λ fault. IsOutside fault ⊎ HasUnfit self.now fault) }
        ensures causes { IfErr result (λ fault. IfSome (F.Files.told self.now.indexed.file.file) (λ bytes. self.now.indexed.file.len ≡ length bytes →
            IsOutside fault ⊎ IsBlockRefused self.now bytes number (IsPageUnfit self.now number) fault)) }
        ensures cause { HasCause Fault.ReadFault (F.Files.faults port.old) (F.Files.faults port.new) result }
        ensures once { CountsOnce (F.Files.faults port.old) (F.Files.faults port.new) result }
    {
        let id = self.id();
        let handles = self.indexed.handles();
        let handle = &handles[number];
        let lent = mem::replace(buffer, Vec::new(alloc));
        let frame = self.read_block(alloc, port, handle, number, lent)?;
        let mut entries = Items::new(alloc);
        let size = frame.body().len();
        list_block(alloc, id, handle.at, frame.body(), &mut entries)?;
        check_page(id, handles, number, entries.as_slice(), size)?;
        *buffer = frame.into_buffer();
        Ok(entries)
    }
}
