//! Laws of heads, records and logs. Each function does nothing: its contract is the law.

ghost use Rattle.mg_wal_format.specs.Chains.{FrontOfListLaw};
ghost use Rattle.mg_wal_format.specs.Opening.{AllInOrderLaw, EndIsKeptLaw, HeadCountsLaw, MorePartsLaw, NeverRefusedLaw, OneFaultLaw, OneListLaw, OneLogsLaw, OneOpeningLaw, StraysOpenLaw, StraysRefusedLaw};
ghost use Rattle.mg_wal_format.specs.Spelling.{OneHeadLaw, OneRecordLaw};
ghost use Rattle.mg_wal_format.specs.Torn.{TornWalLaw};

/// A body spells at most one head, and of each number at most one record.
pub const fn one_spelling()
    ensures head { OneHeadLaw }
    ensures record { OneRecordLaw }
{}

/// What a crash may leave of one log: its whole head and a front of its records, at least those that were sure to be left, or,
/// where not even the head was, no whole head.
pub const fn torn_wal()
    ensures { TornWalLaw }
{}

/// Logs that were to be written one after another for one list of records give a front of that list, where of each but the last
/// at least the records before the first of the next are left.
pub const fn front_of_list()
    ensures { FrontOfListLaw }
{}

/// An image has one list of logs, and these give one list of records. So an image that opens does so in one way, whichever
/// number of partitions is asked for, and for more of them too; and it is not refused. An image is refused for at most one
/// fault.
pub const fn one_opening()
    ensures logs { OneLogsLaw }
    ensures list { OneListLaw }
    ensures more { MorePartsLaw }
    ensures one { OneOpeningLaw }
    ensures apart { NeverRefusedLaw }
    ensures fault { OneFaultLaw }
{}

/// All records that logs give are in order, and each head has the number and the counts behind the records before it.
pub const fn all_in_order()
    ensures order { AllInOrderLaw }
    ensures heads { HeadCountsLaw }
    ensures end { EndIsKeptLaw }
{}

/// Logs without a whole head do not matter: an image of which some are gone opens in the same way, or is refused for the same
/// faults.
pub const fn strays_are_nothing()
    ensures opens { StraysOpenLaw }
    ensures refused { StraysRefusedLaw }
{}
