// Runs of events, worked by hand: with memory but where an event says that it is refused.

use std::alloc::Global;
use std::test::Fail;
use tb_base::{Memory, VarSet};
use tb_core::{Cells, Event, Offered, Offers, Outcome, Ran, Replies, Reply, run};
use tb_release::{Edit, Edits};
use tb_schema::Schema;
use tb_small_values::{release, schema};

// A caller takes the cube over AREA, over SEX or over both, or the custodian drops a person.
enum Deed {
    Take,
    TakeSex,
    TakeBoth,
    Work,
    Offer,
    Answer,
    Drop,
}

// A caller, and the number of its release with its cells, unless it is out of memory.
type Want = (u32, Option<(u32, &'static [(u32, u16)])>);

// Deeds, each with its caller or its person; the places of those that are refused memory; the
// replies and the answers to offers; and of how many sets a cube is kept in the end.
type Case = (
    &'static [(Deed, u32)],
    &'static [usize],
    &'static [Want],
    &'static [Offered],
    u32,
);

// 200 + 100 = 300.
static CASES: [Case; 3] = [
    // Both callers take, the one before person 104 is dropped and the other after it. The other is
    // done first, so the cube that comes late isn't kept. Then 103 is dropped too, and the kept
    // cube is led on.
    (
        &[
            (Deed::Take, 0),
            (Deed::Drop, 104),
            (Deed::Take, 1),
            (Deed::Work, 1),
            (Deed::Offer, 1),
            (Deed::Answer, 1),
            (Deed::Work, 0),
            (Deed::Offer, 0),
            (Deed::Answer, 0),
            (Deed::Drop, 103),
            (Deed::Take, 0),
            (Deed::Work, 0),
            (Deed::Offer, 0),
            (Deed::Answer, 0),
        ],
        &[],
        &[
            (1, Some((1, &[(2, 300), (1, 20)]))),
            (0, Some((0, &[(2, 300), (2, 27)]))),
            (0, Some((2, &[(2, 300), (0, 0)]))),
        ],
        &[Offered::Kept, Offered::Older(1), Offered::Kept],
        1,
    ),
    // The cube over SEX and AREA is kept. 104 leaves, and AREA is asked for: that cube is narrowed,
    // and is one batch behind. 103 and 102 leave, and SEX is asked for: that cube is narrowed once
    // more, and is three batches behind. Each is kept over its own variables, so the other caller
    // finds the last as it is, and has nothing to offer.
    (
        &[
            (Deed::TakeBoth, 0),
            (Deed::Work, 0),
            (Deed::Offer, 0),
            (Deed::Answer, 0),
            (Deed::Drop, 104),
            (Deed::Take, 1),
            (Deed::Work, 1),
            (Deed::Offer, 1),
            (Deed::Answer, 1),
            (Deed::Drop, 103),
            (Deed::Drop, 102),
            (Deed::TakeSex, 0),
            (Deed::Work, 0),
            (Deed::Offer, 0),
            (Deed::Answer, 0),
            (Deed::TakeSex, 1),
            (Deed::Work, 1),
            (Deed::Offer, 1),
            (Deed::Answer, 1),
        ],
        &[],
        &[
            (0, Some((0, &[(2, 300), (1, 20), (0, 0), (1, 7)]))),
            (1, Some((1, &[(2, 300), (1, 20)]))),
            (0, Some((3, &[(1, 200), (0, 0)]))),
            (1, Some((3, &[(1, 200), (0, 0)]))),
        ],
        &[Offered::Kept, Offered::Kept, Offered::Kept],
        3,
    ),
    // Two takes end without memory, the one at once and the other at its work; 104 stays, and the
    // cube of the third isn't kept.
    (
        &[
            (Deed::Take, 0),
            (Deed::Drop, 104),
            (Deed::Take, 0),
            (Deed::Work, 0),
            (Deed::Take, 0),
            (Deed::Work, 0),
            (Deed::Offer, 0),
            (Deed::Answer, 0),
        ],
        &[0, 1, 3, 6],
        &[(0, None), (0, None), (0, Some((0, &[(2, 300), (2, 27)])))],
        &[Offered::Memory],
        0,
    ),
];

fn cases() -> &'static [Case] {
    &CASES
}

fn are_cells(cells: &Cells, want: &[(u32, u16)]) -> bool {
    if cells.len() != want.len() {
        return false;
    }
    for i in 0..cells.len() {
        let cell = cells.at(i);
        let (count, key) = want[i];
        if cell.count != count || cell.key != key {
            return false;
        }
    }
    true
}

fn is_wanted(reply: &Reply, want: &Want) -> bool {
    let (who, got) = want;
    let same = match (&reply.outcome, got) {
        (Outcome::Got { number, cells }, Some((release, want))) => {
            *number == *release && are_cells(cells, want)
        }
        (Outcome::Memory, None) => true,
        _ => false,
    };
    reply.who == *who && same
}

fn are_wanted(replies: &Replies, want: &[Want]) -> bool {
    if replies.len() != want.len() {
        return false;
    }
    for i in 0..replies.len() {
        if !is_wanted(replies.at(i), &want[i]) {
            return false;
        }
    }
    true
}

fn are_offered(offers: &Offers, want: &[Offered]) -> bool {
    if offers.len() != want.len() {
        return false;
    }
    for i in 0..offers.len() {
        if *offers.at(i) != want[i] {
            return false;
        }
    }
    true
}

fn take_of(who: u32, vars: VarSet, refused: bool) -> Event {
    Event::Take {
        who,
        vars: Some(vars),
        refused,
    }
}

fn publish_of(alloc: Global, person: u32, refused: bool) -> Result<Event, Memory> {
    let mut edits = Edits::new(alloc);
    match edits.push(Edit::Drop { person }) {
        Ok(()) => Ok(Event::Publish { edits, refused }),
        Err(_) => Err(Memory),
    }
}

fn event_of(alloc: Global, deed: &Deed, who: u32, refused: bool) -> Result<Event, Memory> {
    match deed {
        Deed::Take => Ok(take_of(who, VarSet::of(alloc, &[2])?, refused)),
        Deed::TakeSex => Ok(take_of(who, VarSet::of(alloc, &[0])?, refused)),
        Deed::TakeBoth => Ok(take_of(who, VarSet::of(alloc, &[0, 2])?, refused)),
        Deed::Work => Ok(Event::Work { who, refused }),
        Deed::Offer => Ok(Event::Offer { who, refused }),
        Deed::Answer => Ok(Event::Answer { who }),
        Deed::Drop => publish_of(alloc, who, refused),
    }
}

fn events_of(
    alloc: Global,
    deeds: &[(Deed, u32)],
    refused: &[usize],
) -> Result<Vec<Event>, Memory> {
    let mut events = Vec::new(alloc);
    for (place, (deed, who)) in deeds.iter().enumerate() {
        events.push(event_of(alloc, deed, *who, refused.contains(&place))?)?;
    }
    Ok(events)
}

fn ran_over(alloc: Global, schema: &Schema, events: &[Event]) -> Result<Ran, Memory> {
    let base = release(alloc, schema)?;
    run(alloc, schema.shape(), base, 4, 2, events)
}

fn ran_of(alloc: Global, events: &[Event]) -> Result<Ran, Memory> {
    let schema = schema(alloc)?;
    ran_over(alloc, &schema, events)
}

fn is_right(alloc: Global, case: &Case) -> Result<bool, Memory> {
    let (deeds, refused, replies, offers, kept) = case;
    let events = events_of(alloc, deeds, refused)?;
    let ran = ran_of(alloc, &events)?;
    Ok(
        are_wanted(&ran.replies, replies)
            && are_offered(&ran.offers, offers)
            && ran.desk.stats().entries == *kept,
    )
}

#[test]
fn worked_events(rt: HostRuntime) -> Result<(), Fail> {
    for (i, case) in cases().iter().enumerate() {
        assert!(rt; is_right(rt.alloc(), case)?, "case {i}");
    }
    Ok(())
}
