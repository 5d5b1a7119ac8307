//! Names of files and logs.

ghost use Rattle.std.specs.Prelude.{◌≡◌};
ghost use Rattle.mg_types.specs.Names.{is_file_kind, is_log_kind, kind_code};

/// What a name in a volume stands for. Kinds are ordered by their codes.
#[derive(Clone, Copy, Debug, PartialEq, Eq, PartialOrd, Ord, Hash)]
pub enum Kind {
    /// A sealed file of the index.
    Table,
    /// A sealed file of the document log.
    Segment,
    /// A sealed file of the numbers of replaced mutations.
    DelList,
    /// A log of manifests.
    Manifest,
    /// A log of all partitions' changes.
    Wal,
}

impl Kind {
    /// The number that spells the kind in files and texts: 1 to 5.
    pub fn code(self) -> u8
        ensures { result ≡ kind_code self }
    {
        match self {
            Kind::Table => 1,
            Kind::Segment => 2,
            Kind::DelList => 3,
            Kind::Manifest => 4,
            Kind::Wal => 5,
        }
    }

    /// Whether names of the kind stand for sealed files.
    pub fn is_file(self) -> bool
        ensures { result ≡ is_file_kind self }
    {
        match self {
            Kind::Table | Kind::Segment | Kind::DelList => true,
            Kind::Manifest | Kind::Wal => false,
        }
    }

    /// Whether names of the kind stand for logs.
    pub fn is_log(self) -> bool
        ensures { result ≡ is_log_kind self }
    {
        !self.is_file()
    }
}

/// A name in a volume, of a sealed file or of a log. Names are ordered by kind, then by number.
#[derive(Clone, Copy, Debug, PartialEq, Eq, PartialOrd, Ord, Hash)]
pub struct Name {
    pub kind: Kind,
    /// The number among the names of its kind.
    pub number: u64,
}

/// A file or log of a partition, or of the shared log's volume where `part` is 65535.
#[derive(Clone, Copy, Debug, PartialEq, Eq)]
pub struct FileId {
    pub part: u16,
    pub kind: Kind,
    pub number: u64,
}
