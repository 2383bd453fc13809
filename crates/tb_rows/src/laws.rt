//! Where a file may be cut. The function does nothing, and its contract is a law of the definition
//! that `read_file` cites.
ghost use Rattle.tb_rows.specs.Cutting.{CutsAtLineFeeds};

/// The records of a file with a line feed before which no quote stands are those of what stands
/// before it, and then those of what begins with it.
pub fn cuts_at_line_feeds()
    ensures { CutsAtLineFeeds }
{}
