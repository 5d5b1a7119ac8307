//! What a client can ask of a partition, and what of it changes the partition.

ghost use Rattle.std.specs.Prelude.{◌≡◌, IfOk, IsOkUnless};

use mg_types::{Doc, Fault, Key};
use std::alloc::Global;

/// A client's call on a partition.
#[derive(Debug, Drop)]
pub enum Call {
    Set { key: Key, doc: Doc },
    Del { key: Key },
    Get { key: Key },
    /// The newest change of each key that changed after the mutation `after`, at most `limit` of them.
    /// `epoch` is the one that the caller knows.
    Feed { epoch: u64, after: u64, limit: u16 },
    /// Keeps the present length as a place to which a rollback can go.
    Mark,
    Forget { mark: u64 },
    /// Back to the greatest mark that is at most `to`.
    Rollback { to: u64 },
    Clear,
    Sync,
    /// Leaves only the newest of each key among the first `through` mutations.
    Compact { through: u64 },
    Stats,
}

impl Call {
    /// The same call once more.
    pub fn copy(&self, alloc: Global) -> Result<Call, Fault>
        ensures ok { IfOk result (λ call. call ≡ self.now) }
        ensures err { IsOkUnless result Fault.NoMemory }
    {
        Ok(match self {
            Call::Set { key, doc } => Call::Set {
                key: key.copy(alloc)?,
                doc: doc.copy(alloc)?,
            },
            Call::Del { key } => Call::Del {
                key: key.copy(alloc)?,
            },
            Call::Get { key } => Call::Get {
                key: key.copy(alloc)?,
            },
            Call::Feed {
                epoch,
                after,
                limit,
            } => Call::Feed {
                epoch: *epoch,
                after: *after,
                limit: *limit,
            },
            Call::Mark => Call::Mark,
            Call::Forget { mark } => Call::Forget { mark: *mark },
            Call::Rollback { to } => Call::Rollback { to: *to },
            Call::Clear => Call::Clear,
            Call::Sync => Call::Sync,
            Call::Compact { through } => Call::Compact { through: *through },
            Call::Stats => Call::Stats,
        })
    }
}

/// An accepted call that changes a partition. The shared log keeps these.
#[derive(Debug, Drop)]
pub enum Change {
    Set { key: Key, doc: Doc },
    Del { key: Key },
    Mark,
    Forget { mark: u64 },
    /// A rollback, by the mark to which it went.
    Back { mark: u64 },
    Clear,
}

impl Change {
    /// The same change once more.
    pub fn copy(&self, alloc: Global) -> Result<Change, Fault>
        ensures ok { IfOk result (λ change. change ≡ self.now) }
        ensures err { IsOkUnless result Fault.NoMemory }
    {
        Ok(match self {
            Change::Set { key, doc } => Change::Set {
                key: key.copy(alloc)?,
                doc: doc.copy(alloc)?,
            },
            Change::Del { key } => Change::Del {
                key: key.copy(alloc)?,
            },
            Change::Mark => Change::Mark,
            Change::Forget { mark } => Change::Forget { mark: *mark },
            Change::Back { mark } => Change::Back { mark: *mark },
            Change::Clear => Change::Clear,
        })
    }
}
