//! Laws of fields and of frames one after another, for those who read records and logs. Each function does nothing: its contract is the law.

ghost use Rattle.mg_frame.specs.BigEndian.{WrittenNumberIsRead, ReadNumberIsWritten, WrittenListIsRead, ReadListIsWritten};
ghost use Rattle.mg_frame.specs.Frames.{TornLogLaw, OneReadingLaw, NoneOfAnyLaw, OneNumberedReadingLaw, FrontChanceLaw, MoreChanceLaw};

/// What is read of a log after a crash, up to its first frame that is not whole: the frames that were sure to be left, and
/// then a front of the others that were appended, unless some bytes happen to be a whole frame.
pub const fn torn_log()
    ensures { TornLogLaw }
{}

/// Bytes that are read up to their first frame that is not whole are read in one way.
pub const fn one_reading()
    ensures { OneReadingLaw }
{}

/// A log ends where no whole frame of the next number begins. Where no whole frame at all begins, none of that number does,
/// and bytes that are read so far are read in one way.
pub const fn numbered_logs()
    ensures none { NoneOfAnyLaw }
    ensures one { OneNumberedReadingLaw }
{}

/// What an image may hold by chance depends on no more of what was written than the image is long, and what is no chance
/// against a front is none against more.
pub const fn chance_in_a_front()
    ensures front { FrontChanceLaw }
    ensures more { MoreChanceLaw }
{}

/// Numbers of any width are read as they were written.
pub const fn number_fields()
    ensures written { WrittenNumberIsRead }
    ensures read { ReadNumberIsWritten }
{}

/// Byte lists after a count of any width are read as they were written.
pub const fn list_fields()
    ensures written { WrittenListIsRead }
    ensures read { ReadListIsWritten }
{}
