//! Laws of legal transcripts, and of what the replies of a run of events show. Each function does
//! nothing, and its contract is a law over the definitions alone. What an event of a run may do is
//! one record over any relation (`Moves` of `proofs/RunSteps`).

ghost use Rattle.tb_session.specs.Laws.{DescriptionsChangeNothing, DescriptionsGoByTheSchema};
ghost use Rattle.tb_session.specs.Laws.{MeetingTranscriptsJoin, NumbersNeverFall, OneMoreLine};
ghost use Rattle.tb_session.specs.Laws.{PastTablesNameTheirRelease, PublishedStays};
ghost use Rattle.tb_session.specs.Laws.{TablesNameTheirList};
ghost use Rattle.tb_session.specs.RunWorlds.{AgreeingRepliesShowTheSame, RepliesAnswerTakes};
ghost use Rattle.tb_session.specs.RunWorlds.{RepliesShowTheirWorlds};

/// A legal transcript and a line more, with a legal reply, are one.
pub fn one_more_line()
    ensures { OneMoreLine }
{}

/// Two legal transcripts, of which one begins where the other ends, are one.
pub fn meeting_transcripts_join()
    ensures { MeetingTranscriptsJoin }
{}

/// The batches that a party has seen stay, so its release numbers never fall.
pub fn numbers_never_fall()
    ensures { NumbersNeverFall }
{}

/// The first line of a table names how many batches lead to its release.
pub fn tables_name_their_list()
    ensures { TablesNameTheirList }
{}

/// The first line of a table of release n of a chain names n.
pub fn past_tables_name_their_release()
    ensures { PastTablesNameTheirRelease }
{}

/// After the custodian's `published N`, its release is N until it asks to publish again.
pub fn published_stays()
    ensures { PublishedStays }
{}

/// In two worlds with equal schemas a line that `describe` begins gets the same reply, but where
/// memory was refused.
pub fn descriptions_go_by_the_schema()
    ensures { DescriptionsGoByTheSchema }
{}

/// Such a line changes nothing, not even what was seen.
pub fn descriptions_change_nothing()
    ensures { DescriptionsChangeNothing }
{}

/// In every run of events, each reply with cells answers a take.
pub fn replies_answer_takes()
    ensures { RepliesAnswerTakes }
{}

/// A query's table that is rolled up from a reply's cells shows at each place the text of the
/// place's own records, of the reply's release.
pub fn replies_show_their_worlds()
    ensures { RepliesShowTheirWorlds }
{}

/// Where two worlds agree at a place, of any two runs with any setups, releases 0, events and
/// queries, the text that is shown there from the reply's cells is the same.
pub fn agreeing_replies_show_the_same()
    ensures { AgreeingRepliesShowTheSame }
{}
