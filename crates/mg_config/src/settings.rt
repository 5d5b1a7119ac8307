//! The four numbers.

ghost use Rattle.std.specs.Prelude.{◌≡◌};
ghost use Rattle.mg_config.specs.Settings.{cache_range, default_settings, memtable_range, partitions_range, workers_range};

/// The least and the greatest value of a setting, and its value where nothing is said of it.
#[derive(Clone, Copy, Debug, PartialEq, Eq)]
pub struct SettingRange {
    pub least: u32,
    pub most: u32,
    pub default: u32,
}

impl SettingRange {
    /// How many partitions there are.
    pub const PARTITIONS: SettingRange = SettingRange {
        least: 1,
        most: 64,
        default: 1,
    };

    /// How many threads work beside the clients.
    pub const WORKERS: SettingRange = SettingRange {
        least: 0,
        most: 8,
        default: 2,
    };

    /// The bytes that a partition's memtable may hold before it is frozen.
    pub const MEMTABLE: SettingRange = SettingRange {
        least: 1_024,
        most: 16_777_216,
        default: 1_048_576,
    };

    /// How many blocks the cache of each port keeps.
    pub const CACHE: SettingRange = SettingRange {
        least: 0,
        most: 65_536,
        default: 1_024,
    };
}

/// What a host sets for all of its partitions. The program uses `partitions` alone so far.
#[derive(Clone, Copy, Debug, PartialEq, Eq)]
pub struct Settings {
    /// How many partitions there are, within [`SettingRange::PARTITIONS`].
    pub partitions: u16,
    /// How many threads work beside the clients, within [`SettingRange::WORKERS`].
    pub workers: u8,
    /// The bytes that a partition's memtable may hold before it is frozen, within [`SettingRange::MEMTABLE`].
    pub memtable: u64,
    /// How many blocks the cache of each port keeps, within [`SettingRange::CACHE`].
    pub cache: u32,
}

impl Default for Settings {
    fn default() -> Settings
        ensures { result ≡ default_settings }
    {
        Settings {
            partitions: SettingRange::PARTITIONS.default as u16,
            workers: SettingRange::WORKERS.default as u8,
            memtable: u64::from(SettingRange::MEMTABLE.default),
            cache: SettingRange::CACHE.default,
        }
    }
}
