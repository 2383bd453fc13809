//! Laws of printed tables. Each function does nothing, and its contract is a law.

ghost use Rattle.tb_text.specs.PrintedWorlds.{AgreeingPlacesShowTheSame, TableShowsWorlds};

/// Where the worlds of two places agree, over any two setups, releases and queries, the same text
/// is shown there.
pub fn agreeing_places_show_the_same()
    ensures { AgreeingPlacesShowTheSame }
{}

/// Each line of a table ends with the text that the world of its place shows.
pub fn each_line_ends_with_its_world()
    ensures { TableShowsWorlds }
{}
