//! Laws of tables. Each function does nothing: its contract is the law.

ghost use Rattle.mg_table.specs.Lists.{OneTable, OneFileOfTable};

/// Bytes are the table of one list of entries over one interval.
pub const fn one_table()
    ensures { OneTable }
{}

/// A list of entries over an interval has one table.
pub const fn one_file_of_table()
    ensures { OneFileOfTable }
{}
