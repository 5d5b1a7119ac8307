//! Laws of files of records. Each function does nothing: its contract is the law.

ghost use Rattle.mg_records.specs.Lists.{OneList, OneFileOfList};

use crate::record::Record;

/// Bytes are the file of one list of records, for each kind of them.
pub const fn one_list<R: Record>()
    ensures { OneList R.kind }
{}

/// A list of records has one file, for each kind of them.
pub const fn one_file_of_list<R: Record>()
    ensures { OneFileOfList R.kind }
{}
