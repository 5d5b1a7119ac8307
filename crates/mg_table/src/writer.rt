//! Writing a table, entry by entry.

ghost use Rattle.std.specs.Prelude.{◌≡◌, ◌≢◌, ◌+◌, ◌*◌, ◌≤◌, ◌<◌, ◌^◌, ◌⊎◌, ◌↔◌, ℕ, List, [], ◌∷◌, ◌++◌, length, map, IsTrue, IfOk, IfErr, MatchResult, OnOk, OnErr};
ghost use Rattle.mg_block.specs.Block.{block_of, Follows, Precedes};
ghost use Rattle.mg_block.specs.View.{last_pair};
ghost use Rattle.mg_bloom.specs.Bloom.{bit_count, IsBitCountFor};
ghost use Rattle.mg_bloom.specs.Folding.{KeepsWords};
ghost use Rattle.mg_faults.specs.Causes.{CountsOnce, HasCause};
ghost use Rattle.mg_indexed.specs.TableKeys.{table_keys};
ghost use Rattle.mg_indexed.specs.Writing.{index_length};
ghost use Rattle.mg_sealed.specs.Answers.{IsUnwritten};
ghost use Rattle.mg_table.specs.Entries.{block_body, first_key, pair_of, payload_of};
ghost use Rattle.mg_types.specs.Bytes.{IsKey};
ghost use Rattle.mg_types.specs.Items.{IsEntry};
ghost use Rattle.mg_table.specs.Table.{Represents};
ghost use Rattle.mg_table.specs.Writing.{Fills, HasBlocks, HasEntries, HasRoom, IsBegun, IsFull, IsOpen, IsPut};
ghost use Rattle.mg_types.specs.declared.items.Entry.{Entry};

use crate::entry::put_payload;
use crate::table::Table;
use mg_block::BlockBuilder;
use mg_bloom::Filter;
use mg_disk::Files;
use mg_indexed::{ClosedBlocks, Summary};
use mg_sealed::{BLOCK_LIMIT, grown};
use mg_types::{Entry, Fault, FileId, Key};
use std::alloc::{AllocError, Global};
use std::marker::Model;

/// The bytes of an item of the index beside its key.
const HANDLE_OVERHEAD: u64 = 13;

/// A table in writing.
///
/// It keeps one block, and two of them for the moment in which one is closed, the index, and the bits of a filter for as many entries as
/// may come at most: 10 to 20 bits for each of them, and no more than 2^31. At the end the filter is folded to the size for the entries
/// that came. So a bound that is far too great changes nothing of the table; it costs the memory of its bits while the table is
/// written, and the time to clear and to fold them. After an error the writer is only dropped.
#[derive(Drop)]
pub struct TableWriter<D> {
    id: FileId,
    lo: u64,
    hi: u64,
    closed: ClosedBlocks<D, Key, Entry>,
    block: BlockBuilder,
    first_key: Vec<u8>,
    filter: Filter,
    most: u64,
    count: u64,
    sizes: u64,
    payload: Vec<u8>,
}

impl<D> Model for TableWriter<D> {
    ghost use Rattle.mg_table.specs.Writing.{Writing, IsBounded};

    ghost Value = { Writing D };

    ghost view = { λ w. record { id = w.id; lo = w.lo; hi = w.hi; closed = w.closed; block = w.block; first = w.first_key.items; filter = w.filter; most = w.most; count = w.count; sizes = w.sizes } };

    ghost invariant = { λ w. IsBounded (record { id = w.id; lo = w.lo; hi = w.hi; closed = w.closed; block = w.block; first = w.first_key.items; filter = w.filter; most = w.most; count = w.count; sizes = w.sizes }) };
}

impl<D> TableWriter<D> {
    /// Whether as many entries are in it as may come.
    pub fn is_full(&self) -> bool
        ensures { IsTrue result ↔ (self.now.most ≤ self.now.count) }
    {
        self.count >= self.most
    }

    /// Whether the key is above those of all entries that were put in.
    pub fn is_above(&self, key: &Key) -> bool
        ensures { IsTrue result ↔ Precedes (last_pair self.now.block).key key.now }
    {
        self.block.may_push(key.bytes(), &[])
    }

    /// Whether no entry was put in.
    pub fn is_empty(&self) -> bool
        ensures { IsTrue result ↔ (self.now.block ≡ []) }
    {
        self.block.is_empty()
    }
}

impl<D: Drop> TableWriter<D> {
    /// A table without an entry, whose label is the interval above `lo` up to `hi`. At most `most` entries may be put in, and
    /// that is no more than there are sequence numbers. A caller who takes it from counts that files say judges these before.
    /// `TableWriter` says what a bound costs that is far above their number.
    pub fn new<F: Files<Draft = D>>(
        alloc: Global,
        port: &mut F,
        id: FileId,
        lo: u64,
        hi: u64,
        most: u64,
    ) -> Result<TableWriter<D>, Fault>
        requires from { lo < 2 ^ 62 }
        requires to { hi < 2 ^ 62 }
        requires most { most ≤ 2 ^ 40 }
        ensures entries { IfOk result (λ writer. HasEntries F.drafted writer []) }
        ensures span { IfOk result (λ writer. (writer.lo ≡ lo) × (writer.hi ≡ hi) × (writer.id ≡ id)) }
        ensures most { IfOk result (λ writer. writer.most ≡ most) }
        ensures empty { IfOk result (λ writer. (writer.block ≡ []) × (writer.count ≡ 0) × (writer.closed.index ≡ [])) }
        ensures outside { IfErr result (λ fault. IsUnwritten fault) }
        ensures cause { HasCause Fault.WriteFault (F.faults port.old) (F.faults port.new) result }
        ensures once { CountsOnce (F.faults port.old) (F.faults port.new) result }
    {
        let filter = Filter::sized(alloc, most)?;
        Ok(TableWriter {
            id,
            lo,
            hi,
            closed: ClosedBlocks::new(alloc, port)?,
            block: BlockBuilder::new(alloc),
            first_key: Vec::new(alloc),
            filter,
            most,
            count: 0,
            sizes: 0,
            payload: Vec::new(alloc),
        })
    }

    /// Puts an entry behind the others. Its key is above theirs, and fewer entries are in it than may come. Where the entry
    /// would begin a block for whose handle the index has no room in a frame, the answer is `Worn` with the length of the index,
    /// and the writer stays as it was: it may be finished.
    pub fn push<F: Files<Draft = D>>(
        &mut self,
        alloc: Global,
        port: &mut F,
        entry: &Entry,
    ) -> Result<(), Fault>
        requires room { self.old.count < self.old.most }
        requires entry { IsEntry entry.now }
        requires rises { Precedes (last_pair self.old.block).key entry.now.key }
        ensures entries { (entries : List Entry) → HasEntries F.drafted self.old entries →
            OnOk result (HasEntries F.drafted self.new (entries ++ entry.now ∷ [])) }
        ensures span { (self.new.lo ≡ self.old.lo) × (self.new.hi ≡ self.old.hi) × (self.new.id ≡ self.old.id) }
        ensures most { self.new.most ≡ self.old.most }
        ensures last { OnOk result ((self.new.block ≢ []) × ((last_pair self.new.block).key ≡ entry.now.key)) }
        ensures count { OnOk result (self.new.count ≡ self.old.count + 1) }
        ensures refusals { IfErr result (λ fault. IsUnwritten fault
            ⊎ (IsFull self.old.closed.index self.old.block self.old.first (pair_of entry.now) fault × (self.new ≡ self.old))) }
        ensures cause { HasCause Fault.WriteFault (F.faults port.old) (F.faults port.new) result }
        ensures once { CountsOnce (F.faults port.old) (F.faults port.new) result }
    {
        let key = entry.key.bytes();
        self.payload.clear();
        put_payload(entry, &mut self.payload)?;
        check_room(
            &self.closed,
            &self.block,
            &self.first_key,
            key,
            &self.payload,
        )?;
        put_pair(
            alloc,
            port,
            &mut self.closed,
            &mut self.block,
            &mut self.first_key,
            key,
            &self.payload,
        )?;
        self.filter.put(key);
        self.count += 1;
        self.sizes += u64::from(entry.size);
        Ok(())
    }

    /// The table, sealed. It has at least one entry.
    pub fn finish<F: Files<Draft = D>>(
        self,
        alloc: Global,
        port: &mut F,
    ) -> Result<Table<F::Sealed>, Fault>
        requires some { self.block ≢ [] }
        ensures table { (entries : List Entry) → HasEntries F.drafted self entries →
            IfOk result (λ table. Represents F.told table entries) }
        ensures span { IfOk result (λ table. (table.indexed.footer.low ≡ self.lo) × (table.indexed.footer.high ≡ self.hi)) }
        ensures id { IfOk result (λ table. table.indexed.file.id ≡ self.id) }
        ensures refusals { IfErr result (λ fault. IsUnwritten fault) }
        ensures cause { HasCause Fault.WriteFault (F.faults port.old) (F.faults port.new) result }
        ensures once { CountsOnce (F.faults port.old) (F.faults port.new) result }
    {
        let TableWriter {
            id,
            lo,
            hi,
            mut closed,
            block,
            first_key,
            filter,
            most: _,
            count,
            sizes,
            payload: _,
        } = self;
        let filter = folded(alloc, filter, count)?;
        close_block(alloc, port, &mut closed, &block, &first_key)?;
        let summary = Summary {
            count,
            sum: sizes,
            low: lo,
            high: hi,
        };
        let indexed = closed.finish(alloc, port, id, &summary, filter.bytes())?;
        Ok(Table { indexed, filter })
    }
}

/// Closes the open block, if there is one: puts its frame behind the others, and its handle into the index. After an error the index
/// is as it was.
fn close_block<F: Files>(
    alloc: Global,
    port: &mut F,
    closed: &mut ClosedBlocks<F::Draft, Key, Entry>,
    block: &BlockBuilder,
    first: &[u8],
) -> Result<(), Fault>
    requires { IsBegun closed.old.index block.now first.now }
    ensures none { block.now ≡ [] → closed.new ≡ closed.old }
    ensures index { block.now ≢ [] → OnOk result (closed.new.index ≡
        closed.old.index ++ record { first = first.now; at = closed.old.frames.len; len = length (block_of block.now) + 20 } ∷ []) }
    ensures blocks { (blocks : List (List Entry)) (last : List Entry) → HasBlocks F.drafted closed.old blocks
        → block.now ≢ [] → block.now ≡ map pair_of last → first.now ≡ first_key last
        → OnOk result (HasBlocks F.drafted closed.new (blocks ++ last ∷ [])) }
    ensures kept { OnErr result (closed.new.index ≡ closed.old.index) }
    ensures refusals { IfErr result (λ fault. IsUnwritten fault) }
    ensures cause { HasCause Fault.WriteFault (F.faults port.old) (F.faults port.new) result }
    ensures once { CountsOnce (F.faults port.old) (F.faults port.new) result }
{
    if block.is_empty() {
        return Ok(());
    }
    let key = key_of(alloc, first)?;
    closed.close(alloc, port, key, block.bytes())
}

/// The key of these bytes.
fn key_of(alloc: Global, bytes: &[u8]) -> Result<Key, Fault>
    requires { IsKey bytes.now }
    ensures key { IfOk result (λ key. key ≡ bytes.now) }
    ensures memory { IfErr result (λ fault. fault ≡ Fault.NoMemory) }
{
    let key = Key::new(alloc, bytes)?;
    Ok(key.unwrap())
}

/// Judges that the index has room for the handle of the block that an entry of this key and payload begins, if it begins one.
/// The handle of the open block is counted as if the index had it.
fn check_room<D: Drop>(
    closed: &ClosedBlocks<D, Key, Entry>,
    block: &BlockBuilder,
    first: &[u8],
    key: &[u8],
    payload: &[u8],
) -> Result<(), Fault>
    requires first { length first.now ≤ 250 }
    requires follows { Follows (last_pair block.now).key (record { key = key.now; payload = payload.now }) }
    requires room { block.now ≢ [] → index_length table_keys closed.now.index + (length first.now + 13) < 2 ^ 32 }
    ensures { MatchResult result
        (λ _. HasRoom closed.now.index block.now first.now (record { key = key.now; payload = payload.now }))
        (λ fault. IsFull closed.now.index block.now first.now (record { key = key.now; payload = payload.now }) fault) }
{
    let more = key.len() as u64 + HANDLE_OVERHEAD;
    let len = closed.index_len();
    if block.is_empty() {
        grown(len, more)?;
        return Ok(());
    }
    if block.size_with(key, payload) > BLOCK_LIMIT {
        grown(len + (first.len() as u64 + HANDLE_OVERHEAD), more)?;
    }
    Ok(())
}

/// Puts a pair into the block.
fn push_pair(block: &mut BlockBuilder, key: &[u8], payload: &[u8]) -> Result<(), Fault>
    requires { Follows (last_pair block.old).key (record { key = key.now; payload = payload.now }) }
    ensures ok { OnOk result (block.new ≡ block.old ++ record { key = key.now; payload = payload.now } ∷ []) }
    ensures err { OnErr result (block.new ≡ block.old) }
    ensures memory { IfErr result (λ fault. fault ≡ Fault.NoMemory) }
{
    match block.push(key, payload) {
        Ok(()) => Ok(()),
        Err(_) => Err(Fault::NoMemory),
    }
}

/// A block of one pair, and its first key.
fn begun_block(alloc: Global, key: &[u8], payload: &[u8]) -> Result<(BlockBuilder, Vec<u8>), Fault>
    requires { Follows [] (record { key = key.now; payload = payload.now }) }
    ensures begun { IfOk result (λ begun. (begun.0 ≡ record { key = key.now; payload = payload.now } ∷ []) × (begun.1.items ≡ key.now)) }
    ensures memory { IfErr result (λ fault. fault ≡ Fault.NoMemory) }
{
    let mut block = BlockBuilder::new(alloc);
    push_pair(&mut block, key, payload)?;
    let mut first = Vec::new(alloc);
    first.extend_from_slice(key)?;
    Ok((block, first))
}

/// Puts a pair into the open block, or, where that would bring the block above the limit or none is open, into a new one, with which
/// the open one is closed. After an error the open block, its first key and the index are as they were.
fn put_pair<F: Files>(
    alloc: Global,
    port: &mut F,
    closed: &mut ClosedBlocks<F::Draft, Key, Entry>,
    block: &mut BlockBuilder,
    first: &mut Vec<u8>,
    key: &[u8],
    payload: &[u8],
) -> Result<(), Fault>
    requires begun { IsBegun closed.old.index block.old first.old.items }
    requires follows { Follows (last_pair block.old).key (record { key = key.now; payload = payload.now }) }
    requires key { IsKey key.now }
    requires payload { length payload.now ≡ 13 }
    requires room { HasRoom closed.old.index block.old first.old.items (record { key = key.now; payload = payload.now }) }
    ensures last { OnOk result ((block.new ≢ []) × ((last_pair block.new).key ≡ key.now)) }
    ensures opened { OnOk result (IsOpen closed.new.index block.new first.new.items) }
    ensures kept { OnErr result ((closed.new.index ≡ closed.old.index) × (block.new ≡ block.old) × (first.new.items ≡ first.old.items)) }
    ensures put { (blocks : List (List Entry)) (last : List Entry) (entry : Entry) → HasBlocks F.drafted closed.old blocks
        → block.old ≡ map pair_of last → (last ≢ [] → first.old.items ≡ first_key last) → Fills blocks last
        → key.now ≡ entry.key → payload.now ≡ payload_of entry
        → OnOk result (IsPut F.drafted closed.new block.new first.new.items blocks last entry) }
    ensures refusals { IfErr result (λ fault. IsUnwritten fault) }
    ensures cause { HasCause Fault.WriteFault (F.faults port.old) (F.faults port.new) result }
    ensures once { CountsOnce (F.faults port.old) (F.faults port.new) result }
{
    if !block.is_empty() && block.size_with(key, payload) <= BLOCK_LIMIT {
        return push_pair(block, key, payload);
    }
    let (next, next_first) = begun_block(alloc, key, payload)?;
    close_block(alloc, port, closed, block, first)?;
    *block = next;
    *first = next_first;
    Ok(())
}

/// The filter folded to the size for so many keys, in memory of that size.
fn folded(alloc: Global, mut filter: Filter, keys: u64) -> Result<Filter, AllocError>
    requires { bit_count filter < 2 ^ 31 → 10 * keys ≤ bit_count filter }
    ensures size { IfOk result (λ folded. IsBitCountFor keys (bit_count folded)) }
    ensures words { IfOk result (λ folded. KeepsWords filter folded) }
{
    let bytes = filter.bytes().len();
    filter.fold(keys);
    if filter.bytes().len() == bytes {
        return Ok(filter);
    }
    filter.fitted(alloc)
}
