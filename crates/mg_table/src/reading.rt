//! Finding an entry, and listing all.

ghost use Rattle.std.specs.Prelude.{◌≡◌, ◌+◌, ◌-◌, ◌<◌, ◌≤◌, ◌^◌, ◌⊎◌, ◌↔◌, IsTrue, true, List, ◌++◌, length, map, All, HoldsAt, IfSome, IfErr, IfOk, OnOk, MatchOption, MatchResult, None, Ok};
ghost use Rattle.mg_block.specs.Block.{IsBlock, Precedes};
ghost use Rattle.mg_block.specs.Search.{Finds, Misses};
ghost use Rattle.mg_bloom.specs.Bloom.{key_words};
ghost use Rattle.mg_faults.specs.Causes.{CountsOnce, HasCause};
ghost use Rattle.mg_frame.specs.Frame.{StandsAt};
ghost use Rattle.mg_indexed.specs.Footer.{footer_size};
ghost use Rattle.mg_sealed.specs.Answers.{Answers, IsOutside};
ghost use Rattle.mg_sealed.specs.Blocks.{IsUnfitAt};
ghost use Rattle.mg_sealed.specs.Filling.{items_of, AreFilled};
ghost use Rattle.mg_table.specs.Entries.{block_body, pair_of, payload_of, AreEntries};
ghost use Rattle.mg_types.specs.Items.{IsEntry};
ghost use Rattle.mg_table.specs.Index.{handles_from};
ghost use Rattle.mg_table.specs.Loading.{IsRead};
ghost use Rattle.mg_table.specs.Reading.{entry_of, read_at, AreRead, BeginsWithKey, HasUnfit, IsFindRead, IsFindRefused, IsListUnfit, IsPayloadRefused, IsScanRefused, IsSearchUnfit, IsSoughtIn, IsSoughtNowhere};
ghost use Rattle.mg_table.specs.Scanning.{AreCounted};
ghost use Rattle.mg_table.specs.Table.{IsTableBut, IsTableOf, Represents};
ghost use Rattle.mg_types.specs.declared.items.Entry.{Entry};

use crate::checks::{check_block, check_counts};
use crate::entry::{Payload, Refused, take_payload};
use crate::table::Table;
use mg_block::BlockCursor;
use mg_bloom::HashedKey;
use mg_indexed::{BlockHandle, FILTERED_FOOTER_LEN};
use mg_items::Items;
use mg_sealed::{BLOCK_LIMIT, Block, Blocks, malformed};
use mg_types::{Entry, Fault, FileId, Key, NUMBER_LIMIT};
use std::alloc::Global;
use std::mem;

impl<S: Drop> Table<S> {
    /// The entry of a key.
    ///
    /// It hashes the key. Where the filter denies it nothing is read, and else one block, as far as the first key that is not
    /// below this one: what stands behind that one is not looked at. It takes memory for a block and the key. A block that is
    /// not as it was written is damaged or malformed, and so is one that does not begin with the key that the index says.
    pub fn find<F: Blocks<Sealed = S>>(
        &self,
        alloc: Global,
        port: &mut F,
        key: &Key,
    ) -> Result<Option<Entry>, Fault>
        ensures found { IfSome (F.Files.told self.now.indexed.file.file) (λ _. (entries : List Entry) → Represents F.Files.told self.now entries →
            Answers (Ok (entry_of key.now entries)) result) }
        ensures read { IfOk result (λ found. IfSome (F.Files.told self.now.indexed.file.file) (λ bytes. self.now.indexed.file.len ≡ length bytes →
            IsFindRead self.now bytes key.now found)) }
        ensures unread { IsSoughtNowhere self.now key.now → (port.new ≡ port.old) × (result ≡ Ok None) }
        ensures refusals { IfErr result (λ fault. IsOutside fault ⊎ HasUnfit self.now fault) }
        ensures causes { IfErr result (λ fault. IfSome (F.Files.told self.now.indexed.file.file) (λ bytes. self.now.indexed.file.len ≡ length bytes →
            IsOutside fault ⊎ IsFindRefused self.now bytes key.now fault)) }
        ensures cause { HasCause Fault.ReadFault (F.Files.faults port.old) (F.Files.faults port.new) result }
        ensures once { CountsOnce (F.Files.faults port.old) (F.Files.faults port.new) result }
    {
        let mut buffer = Vec::new(alloc);
        self.find_hashed(alloc, port, key, &HashedKey::new(key.bytes()), &mut buffer)
    }

    /// `find` of a key that is hashed already, with a buffer that is lent for the block. After an error the buffer may be empty.
    pub fn find_hashed<F: Blocks<Sealed = S>>(
        &self,
        alloc: Global,
        port: &mut F,
        key: &Key,
        hashed: &HashedKey,
        buffer: &mut Vec<u8>,
    ) -> Result<Option<Entry>, Fault>
        requires { hashed.now ≡ key_words key.now }
        ensures found { IfSome (F.Files.told self.now.indexed.file.file) (λ _. (entries : List Entry) → Represents F.Files.told self.now entries →
            Answers (Ok (entry_of key.now entries)) result) }
        ensures read { IfOk result (λ found. IfSome (F.Files.told self.now.indexed.file.file) (λ bytes. self.now.indexed.file.len ≡ length bytes →
            IsFindRead self.now bytes key.now found)) }
        ensures unread { IsSoughtNowhere self.now key.now → (port.new ≡ port.old) × (result ≡ Ok None) }
        ensures refusals { IfErr result (λ fault. IsOutside fault ⊎ HasUnfit self.now fault) }
        ensures causes { IfErr result (λ fault. IfSome (F.Files.told self.now.indexed.file.file) (λ bytes. self.now.indexed.file.len ≡ length bytes →
            IsOutside fault ⊎ IsFindRefused self.now bytes key.now fault)) }
        ensures cause { HasCause Fault.ReadFault (F.Files.faults port.old) (F.Files.faults port.new) result }
        ensures once { CountsOnce (F.Files.faults port.old) (F.Files.faults port.new) result }
    {
        let Some(number) = block_for(self, key, hashed) else {
            return Ok(None);
        };
        let lent = mem::replace(buffer, Vec::new(alloc));
        let id = self.id();
        let handle = &self.indexed.handles()[number];
        let frame = self.read_block(alloc, port, handle, number, lent)?;
        check_first(id, handle, frame.body())?;
        let found = find_in_block(alloc, id, handle.at, frame.body(), key);
        *buffer = frame.into_buffer();
        found
    }

    /// All entries, in rising order of their keys.
    ///
    /// It reads block after block, and takes memory for one block and for all entries. A block that is not as it was written is
    /// damaged or malformed, and one that is not the next of the table by its first key, its order or its filling is malformed;
    /// the footer is, where it says another number of entries or another sum of their sizes.
    pub fn scan<F: Blocks<Sealed = S>>(
        &self,
        alloc: Global,
        port: &mut F,
    ) -> Result<Items<Entry>, Fault>
        ensures listed { IfSome (F.Files.told self.now.indexed.file.file) (λ _. (entries : List Entry) → Represents F.Files.told self.now entries →
            Answers (Ok entries) result) }
        ensures right { IfOk result (λ entries. AreEntries entries × AreCounted self.now.indexed.footer entries) }
        ensures read { IfOk result (λ entries. IfSome (F.Files.told self.now.indexed.file.file) (λ bytes. self.now.indexed.file.len ≡ length bytes →
            (blocks : List (List Entry)) × AreRead self.now.indexed.file.id bytes 0 self.now.indexed.index blocks × AreFilled block_body blocks
            × (entries ≡ items_of blocks))) }
        ensures whole { IfOk result (λ entries. IfSome (F.Files.told self.now.indexed.file.file) (λ bytes. self.now.indexed.file.len ≡ length bytes →
            IsRead self.now.indexed.file.id bytes self.now → IsTableBut bytes self.now.indexed.footer.low self.now.indexed.footer.high entries self.now.filter)) }
        ensures refusals { IfErr result (λ fault. IsOutside fault ⊎ HasUnfit self.now fault
            ⊎ (fault ≡ Fault.Malformed self.now.indexed.file.id (self.now.indexed.file.len - footer_size true))) }
        ensures causes { IfErr result (λ fault. IfSome (F.Files.told self.now.indexed.file.file) (λ bytes. self.now.indexed.file.len ≡ length bytes →
            IsOutside fault ⊎ IsScanRefused self.now bytes fault)) }
        ensures cause { HasCause Fault.ReadFault (F.Files.faults port.old) (F.Files.faults port.new) result }
        ensures once { CountsOnce (F.Files.faults port.old) (F.Files.faults port.new) result }
    {
        let mut entries = Items::new(alloc);
        let mut buffer = Vec::new(alloc);
        let mut len = BLOCK_LIMIT;
        let id = self.id();
        let handles = self.indexed.handles();
        for number in 0..handles.len() {
            let handle = &handles[number];
            let frame = self.read_block(alloc, port, handle, number, buffer)?;
            let listed = entries.len();
            let size = frame.body().len();
            list_block(alloc, id, handle.at, frame.body(), &mut entries)?;
            check_block(id, handle, entries.as_slice(), listed, len, size)?;
            len = size;
            buffer = frame.into_buffer();
        }
        let footer_at = self.sealed().len.saturating_sub(FILTERED_FOOTER_LEN);
        check_counts(id, footer_at, self.indexed.footer(), entries.as_slice())?;
        Ok(entries)
    }

    /// What faults call the file.
    pub(crate) fn id(&self) -> FileId
        ensures { result ≡ self.now.indexed.file.id }
    {
        self.indexed.file().id
    }

    /// The block of this number, whose handle this is, in a buffer that is lent. Of the block it judges the frame alone.
    pub(crate) fn read_block<F: Blocks<Sealed = S>>(
        &self,
        alloc: Global,
        port: &mut F,
        handle: &BlockHandle<Key>,
        number: usize,
        buffer: Vec<u8>,
    ) -> Result<Block, Fault>
        requires { handle.now.at < 2 ^ 62 }
        ensures told { IfSome (F.Files.told self.now.indexed.file.file) (λ bytes. self.now.indexed.file.len ≡ length bytes →
            Answers (read_at self.now.indexed.file.id bytes handle.now number) result) }
        ensures stands { IfSome (F.Files.told self.now.indexed.file.file) (λ bytes. self.now.indexed.file.len ≡ length bytes →
            IfOk result (λ body. StandsAt bytes handle.now.at (number, body))) }
        ensures len { IfOk result (λ body. length body + 20 ≡ handle.now.len) }
        ensures refusals { IfErr result (λ fault. IsOutside fault ⊎ IsUnfitAt self.now.indexed.file.id handle.now.at fault) }
        ensures cause { HasCause Fault.ReadFault (F.Files.faults port.old) (F.Files.faults port.new) result }
        ensures once { CountsOnce (F.Files.faults port.old) (F.Files.faults port.new) result }
    {
        port.block(
            alloc,
            self.indexed.file(),
            handle.at,
            handle.len,
            number as u64,
            buffer,
        )
    }
}

/// The number of the only block that may have a key. None has it where the filter denies it, or where it is below the first.
fn block_for<S>(table: &Table<S>, key: &Key, hashed: &HashedKey) -> Option<usize>
    requires { hashed.now ≡ key_words key.now }
    ensures sought { MatchOption result
        (IsSoughtNowhere table.now key.now)
        (λ number. IsSoughtIn table.now key.now number) }
    ensures nowhere { IsSoughtNowhere table.now key.now → result ≡ None }
    ensures only { (entries : List Entry) (blocks : List (List Entry)) →
        IsTableOf table.now.indexed.footer.low table.now.indexed.footer.high entries blocks table.now.filter → table.now.indexed.index ≡ handles_from 0 blocks →
        MatchOption result
        (entry_of key.now entries ≡ None)
        (λ number. HoldsAt (λ block. entry_of key.now entries ≡ entry_of key.now block) blocks number) }
{
    if !table.filter.may_hold_hashed(hashed) {
        return None;
    }
    table.indexed.blocks_up_to(key).checked_sub(1)
}

/// Whether bytes begin with a pair of this key.
fn begins_with(block: &[u8], key: &[u8]) -> bool
    ensures { IsTrue result ↔ BeginsWithKey block.now key.now }
{
    let mut cursor = BlockCursor::new(block);
    let Ok(true) = cursor.advance() else {
        return false;
    };
    cursor.key() == key
}

/// Judges the front of a block: it begins with the key that the index says, and so it has an entry.
fn check_first(id: FileId, handle: &BlockHandle<Key>, block: &[u8]) -> Result<(), Fault>
    ensures { MatchResult result
        (λ _. BeginsWithKey block.now handle.now.first)
        (λ fault. (BeginsWithKey block.now handle.now.first → ⊥) × (fault ≡ Fault.Malformed id handle.now.at)) }
{
    if !begins_with(block, handle.first.bytes()) {
        return Err(malformed(id, handle.at));
    }
    Ok(())
}

/// The entry of a key in a block, which was read at this offset of a file.
fn find_in_block(
    alloc: Global,
    id: FileId,
    at: u64,
    block: &[u8],
    key: &Key,
) -> Result<Option<Entry>, Fault>
    ensures in_block { (entries : List Entry) → All IsEntry entries → IsBlock block.now (map pair_of entries) →
        MatchResult result (λ found. found ≡ entry_of key.now entries) (λ fault. fault ≡ Fault.NoMemory) }
    ensures read { IfOk result (λ found. MatchOption found
        (Misses block.now key.now)
        (λ entry. (entry.key ≡ key.now) × IsEntry entry × Finds block.now key.now (payload_of entry))) }
    ensures refusals { IfErr result (λ fault. (fault ≡ Fault.NoMemory) ⊎ IsUnfitAt id at fault) }
    ensures causes { IfErr result (λ fault. (fault ≡ Fault.NoMemory) ⊎ IsSearchUnfit id at block.now key.now fault) }
{
    let mut payload = [0; 255];
    match mg_block::find(block, key.bytes(), &mut payload) {
        Ok(None) => Ok(None),
        Ok(Some(len)) => {
            let key = key.copy(alloc)?;
            let entry = entry_from(id, at, key, &payload[..usize::from(len)])?;
            Ok(Some(entry))
        }
        Err(_) => Err(Fault::Malformed { file: id, at }),
    }
}

/// The entry of a key and a payload in the block at this offset of a file.
fn entry_from(id: FileId, at: u64, key: Key, payload: &[u8]) -> Result<Entry, Fault>
    ensures written { (entry : Entry) → IsEntry entry → key ≡ entry.key → payload.now ≡ payload_of entry → result ≡ Ok entry }
    ensures read { IfOk result (λ entry. (entry.key ≡ key) × IsEntry entry × (payload.now ≡ payload_of entry)) }
    ensures refusals { IfErr result (λ fault. IsUnfitAt id at fault) }
    ensures causes { IfErr result (λ fault. IsPayloadRefused id at payload.now fault) }
{
    match take_payload(payload) {
        Ok(Payload { seq, size, gone }) => Ok(Entry {
            key,
            seq,
            size,
            gone,
        }),
        Err(Refused::Number(kept)) => Err(Fault::Damaged {
            file: id,
            at,
            kept,
            found: NUMBER_LIMIT,
        }),
        Err(Refused::Form) => Err(Fault::Malformed { file: id, at }),
    }
}

/// Appends the entries of a block, which was read at this offset of a file.
pub(crate) fn list_block(
    alloc: Global,
    id: FileId,
    at: u64,
    block: &[u8],
    entries: &mut Items<Entry>,
) -> Result<(), Fault>
    ensures in_block { (listed : List Entry) → All IsEntry listed → IsBlock block.now (map pair_of listed) →
        MatchResult result (λ _. entries.new ≡ entries.old ++ listed) (λ fault. fault ≡ Fault.NoMemory) }
    ensures read { OnOk result ((listed : List Entry) × (entries.new ≡ entries.old ++ listed)
        × IsBlock block.now (map pair_of listed) × All IsEntry listed) }
    ensures refusals { IfErr result (λ fault. (fault ≡ Fault.NoMemory) ⊎ IsUnfitAt id at fault) }
    ensures causes { IfErr result (λ fault. (fault ≡ Fault.NoMemory) ⊎ IsListUnfit id at block.now fault) }
{
    let malformed = Fault::Malformed { file: id, at };
    let mut cursor = BlockCursor::new(block);
    while cursor.advance().or(Err(malformed))? {
        let Some(key) = Key::new(alloc, cursor.key())? else {
            return Err(malformed);
        };
        entries.push(entry_from(id, at, key, cursor.payload())?)?;
    }
    Ok(())
}
