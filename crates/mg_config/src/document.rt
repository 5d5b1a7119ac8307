//! Settings from a document.

ghost use Rattle.std.specs.Prelude.{◌≡◌, ◌≤◌, ◌<◌, ◌⊎◌, codes, Some, IfOk, IfErr, IfSome, IsErr, IsSome, option_copied};
ghost use Rattle.toml.specs.View.{table_view};
ghost use Rattle.mg_config.specs.Settings.{AreInRange, IsAccepted, IsRefused, IsWithin, are_known, is_known, number_at, number_in, settings_of};
ghost use Rattle.mg_types.specs.declared.faults.Fault.TheVariants as fault;

use crate::settings::{SettingRange, Settings};
use mg_types::Fault;
use std::alloc::Global;
use toml::Table;

/// The most bytes of a document.
pub const MAX_LEN: usize = 65_536;

/// The settings of a document of TOML, and all defaults where there is none. A key that is not there has its default.
///
/// A refusal is [`Fault::BadSettings`] with the least rule that is broken: 0 where the document has more than [`MAX_LEN`]
/// bytes or `toml` does not read it, 1 for a key that is none of the four, and 2 to 5 where `partitions`, `workers`,
/// `memtable` or `cache`, in this order, is no whole number in its range. Which bytes are TOML, and of which table, is said
/// by the crate `toml`: its `parse_document`. Without a document there is no error, not even want of memory.
///
/// It takes memory for the table alone, which is in proportion to the document.
pub fn read_settings(alloc: Global, bytes: Option<&[u8]>) -> Result<Settings, Fault>
    ensures ok { IfOk result (IsAccepted (option_copied bytes.entry)) }
    ensures range { IfOk result AreInRange }
    ensures there { IsErr result → IsSome bytes.entry }
    ensures err { IfErr result (λ f. (f ≡ Fault.NoMemory) ⊎ IsRefused (option_copied bytes.entry) f) }
{
    match bytes {
        Some(bytes) => read_document(alloc, bytes),
        None => Ok(Settings::default()),
    }
}

// The settings of a document that is there.
fn read_document(alloc: Global, bytes: &[u8]) -> Result<Settings, Fault>
    ensures ok { IfOk result (IsAccepted (Some bytes.now)) }
    ensures range { IfOk result AreInRange }
    ensures err { IfErr result (λ f. (f ≡ Fault.NoMemory) ⊎ IsRefused (Some bytes.now) f) }
{
    if bytes.len() > MAX_LEN {
        return Err(Fault::BadSettings { at: 0 });
    }
    match toml::table_from_slice(alloc, bytes) {
        Ok(table) => judge(&table),
        Err(error) if error.is_memory() => Err(Fault::NoMemory),
        Err(_) => Err(Fault::BadSettings { at: 0 }),
    }
}

// The settings of a table, or the least rule that it breaks.
fn judge(table: &Table) -> Result<Settings, Fault>
    ensures settings { result ≡ settings_of (table_view table.now) }
    ensures range { IfOk result AreInRange }
{
    if !has_known_keys(table) {
        return Err(Fault::BadSettings { at: 1 });
    }
    let Some(partitions) = number(table, "partitions", SettingRange::PARTITIONS) else {
        return Err(Fault::BadSettings { at: 2 });
    };
    let Some(workers) = number(table, "workers", SettingRange::WORKERS) else {
        return Err(Fault::BadSettings { at: 3 });
    };
    let Some(memtable) = number(table, "memtable", SettingRange::MEMTABLE) else {
        return Err(Fault::BadSettings { at: 4 });
    };
    let Some(cache) = number(table, "cache", SettingRange::CACHE) else {
        return Err(Fault::BadSettings { at: 5 });
    };
    Ok(Settings {
        partitions: partitions as u16,
        workers: workers as u8,
        memtable: u64::from(memtable),
        cache,
    })
}

fn has_known_keys(table: &Table) -> bool
    ensures { result ≡ are_known (table_view table.now) }
{
    'members: for (key, _value) in table.iter() {
        if !is_known(key.as_str()) {
            return false;
        }
    }
    true
}

fn is_known(key: &str) -> bool
    ensures { result ≡ is_known key.now }
{
    key == "partitions" || key == "workers" || key == "memtable" || key == "cache"
}

// The number at a key, or the default where the key is not there, or `None` where it is no whole number in the range.
fn number(table: &Table, key: &str, range: SettingRange) -> Option<u32>
    requires { IsWithin range range.default }
    ensures value { result ≡ number_at key.now range (table_view table.now) }
    ensures within { IfSome result (IsWithin range) }
{
    match table.get(key) {
        Some(value) => match value.as_integer() {
            Some(integer) => number_in(integer, range),
            None => None,
        },
        None => Some(range.default),
    }
}

fn number_in(integer: i64, range: SettingRange) -> Option<u32>
    ensures value { result ≡ number_in range integer }
    ensures within { IfSome result (IsWithin range) }
{
    match u32::try_from(integer) {
        Ok(n) if range.least <= n && n <= range.most => Some(n),
        _ => None,
    }
}
