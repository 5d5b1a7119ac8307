//! Laws of sealed files, for those who write and read one kind of them. Each function does nothing: its contract is the law.

ghost use Rattle.mg_sealed.specs.Filling.{OneFilling};
ghost use Rattle.mg_sealed.specs.Footer.{WrittenFooterIsRead};
ghost use Rattle.mg_sealed.specs.Lists.{OneListOfFrames};

/// Items are filled into blocks in one way.
pub const fn one_filling<T>()
    ensures { OneFilling T }
{}

/// The footer of a file that was written here is read, and is refused nowhere.
pub const fn written_footer_is_read()
    ensures { WrittenFooterIsRead }
{}

/// Bytes are the numbered frames of one list of bodies.
pub const fn one_list_of_frames()
    ensures { OneListOfFrames }
{}
