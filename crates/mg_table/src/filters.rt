//! The filter of a table's keys, made anew and compared.

ghost use Rattle.std.specs.Prelude.{◌≡◌, ◌↔◌, ℕ, List, IfErr, IfOk, IsTrue};
ghost use Rattle.mg_table.specs.Filters.{IsFilterOf};
ghost use Rattle.mg_table.specs.Table.{hashed_keys};

use crate::table::Table;
use mg_bloom::Filter;
use mg_types::{Entry, Fault};
use std::alloc::{AllocError, Global};

impl<S> Table<S> {
    /// Whether the table's filter is that of exactly these entries' keys, as the entries of a scan should be. It hashes each key,
    /// and takes memory for a filter.
    pub fn has_filter_of(&self, alloc: Global, entries: &[Entry]) -> Result<bool, Fault>
        ensures answer { IfOk result (λ answer. IsTrue answer ↔ IsFilterOf (hashed_keys entries.now) self.now.filter) }
        ensures memory { IfErr result (λ fault. fault ≡ Fault.NoMemory) }
    {
        let made = filter_of(alloc, entries)?;
        Ok(is_same(made.bytes(), self.filter.bytes()))
    }
}

/// The filter of exactly these entries' keys.
fn filter_of(alloc: Global, entries: &[Entry]) -> Result<Filter, AllocError>
    ensures { IfOk result (λ filter. IsFilterOf (hashed_keys entries.now) filter) }
{
    let mut filter = Filter::sized(alloc, entries.len() as u64)?;
    for entry in entries {
        filter.put(entry.key.bytes());
    }
    Ok(filter)
}

/// Whether a body is that of a filter which was made.
fn is_same(made: &[u8], body: &[u8]) -> bool
    ensures { (hashed : List (List ℕ)) → IsFilterOf hashed made.now → IsTrue result ↔ IsFilterOf hashed body.now }
{
    made[..] == body[..]
}
