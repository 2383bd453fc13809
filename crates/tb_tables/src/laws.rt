//! Laws of printed tables of dwellings. Each function does nothing, and its contract is a law.

ghost use Rattle.tb_tables.specs.HomesWorlds.{HomesTableShowsWorlds};

/// Each line of a table of dwellings ends with the text that the world of its place shows.
pub fn each_line_of_dwellings_ends_with_its_world()
    ensures { HomesTableShowsWorlds }
{}
