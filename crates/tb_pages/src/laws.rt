//! Laws of pages and their stamps. Each function does nothing, and its contract is a law.
ghost use Rattle.tb_pages.specs.Rooms.{ChangesFill, FewPages, RecordsFill};
ghost use Rattle.tb_pages.specs.Stamps.{ChangesKeepPages, StampsTell, StepsKeepPages};

/// A change leaves each page that doesn't get its stamp as it was.
pub fn changes_keep_pages()
    ensures { ChangesKeepPages }
{}

/// So do two steps under one stamp.
pub fn steps_keep_pages()
    ensures { StepsKeepPages }
{}

/// Page i of release n is page i of the release whose number is its stamp.
pub fn stamps_tell()
    ensures { StampsTell }
{}

/// Pages are few: each change is one add at most.
pub fn changes_fill()
    ensures { ChangesFill }
{}

/// So are those of release 0.
pub fn records_fill()
    ensures { RecordsFill }
{}

/// 101 million adds, one for each of the most persons and the most edits of a chain, leave fewer
/// pages than there are numbers for them.
pub fn few_pages()
    ensures { FewPages }
{}
