//! What a partition replies to a call.

use mg_items::Items;
use mg_types::{Doc, Fault, Item};

/// The reply to a call that met no fault.
#[derive(Debug, Drop)]
pub enum Reply {
    /// The number of the mutation that a set or a delete made.
    Seq {
        seq: u64,
    },
    /// The newest document of a key, and its mutation's number.
    Found {
        seq: u64,
        doc: Doc,
    },
    /// The key was never set, or its newest mutation is a delete.
    Absent,
    /// `end` is the number after which the next feed goes on.
    Feed {
        epoch: u64,
        end: u64,
        items: Items<Item>,
    },
    /// A feed asked for what comes after a number above the length.
    Ahead {
        length: u64,
    },
    /// A feed asked for another epoch than the present one.
    Epoch {
        epoch: u64,
    },
    Marked {
        mark: u64,
    },
    /// No mark more is taken, since so many are kept.
    Full {
        kept: u8,
    },
    Forgot {
        mark: u64,
    },
    NoMark {
        mark: u64,
    },
    /// A rollback went to this mark, and the epoch is a new one.
    Back {
        mark: u64,
        epoch: u64,
    },
    /// No mark is low enough for the rollback; the least one is this.
    Reset {
        least: Option<u64>,
    },
    Cleared {
        epoch: u64,
    },
    Synced,
    Compacted {
        through: u64,
        keys: u64,
        bytes: u64,
    },
    Stats {
        length: u64,
        live: u64,
        bytes: u64,
        marks: u64,
        epoch: u64,
    },
}

/// What a client is told of its call.
#[derive(Debug, Drop)]
pub struct Answer {
    /// The call's place in its partition's history, from 1. A call that changed nothing because of a
    /// fault may have none.
    pub place: Option<u64>,
    pub result: Result<Reply, Fault>,
}
