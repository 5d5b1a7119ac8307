//! Passes over a whole mutation list, each of which computes one of the definitions.

ghost use Rattle.std.specs.Prelude.{◌≡◌, ◌≤◌, ◌&&◌, ◌==◌, is_some, length, nat_lt, IfOk, IsOkUnless};
ghost use Rattle.std.specs.List.{filter, sum_by};
ghost use Rattle.mg_types.specs.Items.{doc_size, is_set, size_of};
ghost use Rattle.mg_model.specs.Mutations.{feed, held, item_of, last_seq, live, newest};
ghost use Rattle.mg_model.specs.State.{seq_limit};

use crate::mutations::Mutation;
use mg_items::Items;
use mg_types::{Fault, Item, Key};
use std::alloc::Global;

/// The place of the newest mutation of a key, from 1, or 0 where there is none.
pub fn newest_place(mutations: &[Mutation], key: &Key) -> usize
    ensures { result ≡ newest (held mutations.now) key.now }
{
    let mut place = 0;
    for (index, mutation) in mutations.iter().enumerate() {
        if mutation.key.bytes() == key.bytes() {
            place = index + 1;
        }
    }
    place
}

/// Whether the mutation at a place, counted from 1, is the newest of its key.
fn is_newest(mutations: &[Mutation], mutation: &Mutation, place: usize) -> bool
    ensures { result ≡ (newest (held mutations.now) mutation.now.key == place) }
{
    newest_place(mutations, &mutation.key) == place
}

/// Whether the mutation at a place belongs in a feed of what comes after `after`.
fn is_due(mutations: &[Mutation], mutation: &Mutation, place: usize, after: u64) -> bool
    ensures { result ≡ (nat_lt after place && (newest (held mutations.now) mutation.now.key == place)) }
{
    after < place as u64 && is_newest(mutations, mutation, place)
}

/// Whether the mutation at a place is a set and the newest of its key.
fn is_live_set(mutations: &[Mutation], mutation: &Mutation, place: usize) -> bool
    ensures { result ≡ (is_some mutation.now.doc && (newest (held mutations.now) mutation.now.key == place)) }
{
    mutation.doc.is_some() && is_newest(mutations, mutation, place)
}

/// The mutation as an item with this number.
fn numbered(alloc: Global, seq: u64, mutation: &Mutation) -> Result<Item, Fault>
    ensures ok { IfOk result (λ item. item ≡ item_of seq mutation.now) }
    ensures err { IsOkUnless result Fault.NoMemory }
{
    let doc = match &mutation.doc {
        Some(doc) => Some(doc.copy(alloc)?),
        None => None,
    };
    let key = mutation.key.copy(alloc)?;
    Ok(Item { seq, key, doc })
}

/// The first `limit` newest mutations after `after`.
pub fn feed_items(
    alloc: Global,
    mutations: &[Mutation],
    after: u64,
    limit: u16,
) -> Result<Items<Item>, Fault>
    ensures ok { IfOk result (λ items. items ≡ feed (held mutations.now) after limit) }
    ensures err { IsOkUnless result Fault.NoMemory }
{
    let mut items = Items::new(alloc);
    for (index, mutation) in mutations.iter().enumerate() {
        let place = index + 1;
        if items.len() < usize::from(limit) && is_due(mutations, mutation, place, after) {
            items.push(numbered(alloc, place as u64, mutation)?)?;
        }
    }
    Ok(items)
}

/// How many, and the sum of their bytes.
#[derive(Clone, Copy, Debug)]
pub struct Tally {
    pub count: u64,
    pub bytes: u64,
}

/// The bytes of a mutation's document; a delete has none.
fn document_size(mutation: &Mutation) -> u64
    ensures size { result ≡ doc_size (item_of 0 mutation.now) }
    ensures bound { result ≤ 1048576 }
{
    match &mutation.doc {
        Some(doc) => doc.bytes().len() as u64,
        None => 0,
    }
}

/// The keys whose newest mutation is a set, and the bytes of those documents.
pub fn live_documents(mutations: &[Mutation]) -> Tally
    requires { length mutations.now ≤ seq_limit }
    ensures count { result.count ≡ length (filter is_set (live (held mutations.now))) }
    ensures bytes { result.bytes ≡ sum_by doc_size (filter is_set (live (held mutations.now))) }
{
    let mut count = 0u64;
    let mut bytes = 0u64;
    for (index, mutation) in mutations.iter().enumerate() {
        if is_live_set(mutations, mutation, index + 1) {
            count += 1;
            bytes += document_size(mutation);
        }
    }
    Tally { count, bytes }
}

/// The bytes of a mutation: of its key and of its document.
fn mutation_size(mutation: &Mutation) -> u64
    ensures size { result ≡ size_of (item_of 0 mutation.now) }
    ensures bound { result ≤ 1048826 }
{
    mutation.key.bytes().len() as u64 + document_size(mutation)
}

/// The keys that have a mutation, and the sizes of their newest ones.
pub fn live_sizes(mutations: &[Mutation]) -> Tally
    requires { length mutations.now ≤ seq_limit }
    ensures count { result.count ≡ length (live (held mutations.now)) }
    ensures bytes { result.bytes ≡ sum_by size_of (live (held mutations.now)) }
{
    let mut count = 0u64;
    let mut bytes = 0u64;
    for (index, mutation) in mutations.iter().enumerate() {
        if is_newest(mutations, mutation, index + 1) {
            count += 1;
            bytes += mutation_size(mutation);
        }
    }
    Tally { count, bytes }
}

/// The number of the last item, or `default` where there is none.
pub fn last_number(items: &[Item], default: u64) -> u64
    ensures { result ≡ last_seq items.now default }
{
    items.last().map_or(default, |item| item.seq)
}
