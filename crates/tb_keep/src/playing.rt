// How the batches of a journal are published when it is recovered.

ghost use Rattle.std.specs.Prelude.{◌≡◌, ◌≤◌, ◌<◌, ◌+◌, ◌-◌, ◌^◌, true, [], Some};
ghost use Rattle.tb_disk.specs.Images.{WhereTold};
ghost use Rattle.tb_disk.specs.Quiet.{IsQuiet};
ghost use Rattle.tb_io.specs.Faults.{HasRisen};
ghost use Rattle.tb_journal.specs.States.{opened};
ghost use Rattle.tb_journal.specs.Stops.{IsOn};
ghost use Rattle.tb_model.specs.Schemas.{shape_of};
ghost use Rattle.tb_session.specs.Parties.{IsCustodianOf};
ghost use Rattle.tb_keep.specs.Playing.{HasPlayed, IsFollowed, PlaysNext};
ghost use Rattle.tb_keep.specs.declared.playing.Played.TheVariants as played;

use std::alloc::Global;
use std::sync::Wait;
use tb_board::{Board, Custodian, Named};
use tb_disk::Disk;
use tb_journal::{Journal, Recovered, fits};
use tb_release::{EditFault, Edits, MOST_RELEASES};
use tb_text::Setup;

/// How a journal was played: `All` says that all of its batches were published. `BadRecord` and
/// `DoesNotFollow` have the number, from 1, of the first record with a fault: there is no record of
/// edits, or its edits don't fit the setup or are refused. After `DiskFault`, a fault of the
/// outside, and `Memory` the journal may have more.
#[derive(Clone, Copy, Debug, PartialEq, Eq)]
pub enum Played {
    All,
    BadRecord(u32),
    DoesNotFollow(u32),
    DiskFault,
    Memory,
}

// What became of a recovered batch.
#[derive(Clone, Copy, Debug, PartialEq, Eq)]
enum Followed {
    Published,
    Refused,
    Memory,
}

// Publishes the batch of recovered edits, if they fit the setup and can follow.
fn follow<B: Named>(
    rt: &impl Wait,
    alloc: Global,
    setup: &Setup,
    board: &Board<B>,
    custodian: &mut Custodian,
    edits: &Edits,
) -> Followed
    requires own { IsCustodianOf B.name (shape_of setup.now.schema) custodian.old [] }
    ensures own { IsCustodianOf B.name (shape_of setup.now.schema) custodian.new [] }
    ensures followed { IsFollowed setup.now custodian.old edits.now result custodian.new }
{
    if !fits(setup.schema.shape(), setup.schema.keys(), edits) {
        return Followed::Refused;
    }
    match board.publish(rt, alloc, custodian, edits) {
        Ok(_) => Followed::Published,
        Err(EditFault::Refused { .. }) => Followed::Refused,
        Err(EditFault::Memory) => Followed::Memory,
    }
}

// Publishes the next batch of a journal, whose record would have this number, or tells how playing
// ends.
fn play_next<B: Named, D: Disk>(
    rt: &impl Wait,
    alloc: Global,
    setup: &Setup,
    board: &Board<B>,
    custodian: &mut Custodian,
    disk: &mut D,
    journal: &mut Journal,
    number: u32,
) -> Option<Played>
    requires own { IsCustodianOf B.name (shape_of setup.now.schema) custodian.old [] }
    requires attached { D.attached disk.old ≡ true }
    requires few { journal.old.read < 2 ^ 32 - 1 }
    requires on { WhereTold (D.content disk.old)
        (λ file. IsOn file (D.may_leave disk.old) journal.old) }
    ensures own { IsCustodianOf B.name (shape_of setup.now.schema) custodian.new [] }
    ensures attached { D.attached disk.new ≡ true }
    ensures on { WhereTold (D.content disk.new)
        (λ file. IsOn file (D.may_leave disk.new) journal.new) }
    ensures next { PlaysNext setup.now (D.content disk.old) number journal.old journal.new
        custodian.old custodian.new result }
    ensures quiet { IsQuiet D.content D.may_leave D.moment D.left_since disk.old disk.new }
    ensures count { D.faults disk.old ≤ D.faults disk.new }
    ensures failed { result ≡ Some played.DiskFault →
        HasRisen (D.faults disk.old) (D.faults disk.new) }
{
    match journal.read_next(alloc, disk) {
        Recovered::Batch(edits) => match follow(rt, alloc, setup, board, custodian, &edits) {
            Followed::Published => None,
            Followed::Refused => Some(Played::DoesNotFollow(number)),
            Followed::Memory => Some(Played::Memory),
        },
        Recovered::End => Some(Played::All),
        Recovered::BadRecord(number) => Some(Played::BadRecord(number)),
        Recovered::DiskFault => Some(Played::DiskFault),
        Recovered::Memory => Some(Played::Memory),
    }
}

/// Publishes each batch of a journal that was just opened, in order, up to the first that can't be:
/// one that fits the setup and can follow is published, and no other. It writes nothing to the
/// disk. It holds one batch at a time, and takes memory for that and for the next release.
pub fn play<B: Named, D: Disk>(
    rt: &impl Wait,
    alloc: Global,
    setup: &Setup,
    board: &Board<B>,
    custodian: &mut Custodian,
    disk: &mut D,
    journal: &mut Journal,
) -> Played
    requires own { IsCustodianOf B.name (shape_of setup.now.schema) custodian.old [] }
    requires attached { D.attached disk.old ≡ true }
    requires opened { journal.old ≡ opened }
    requires on { WhereTold (D.content disk.old)
        (λ file. IsOn file (D.may_leave disk.old) journal.old) }
    // Of a disk that tells nothing too, what was published fits and follows.
    ensures played { HasPlayed setup.now (D.content disk.old) custodian.old custodian.new result }
    ensures own { IsCustodianOf B.name (shape_of setup.now.schema) custodian.new [] }
    ensures attached { D.attached disk.new ≡ true }
    ensures live { result ≡ played.All → journal.new.live ≡ true }
    ensures at_end { result ≡ played.All → journal.new.at_end ≡ true }
    ensures on { WhereTold (D.content disk.new)
        (λ file. IsOn file (D.may_leave disk.new) journal.new) }
    ensures quiet { IsQuiet D.content D.may_leave D.moment D.left_since disk.old disk.new }
    ensures count { D.faults disk.old ≤ D.faults disk.new }
    ensures failed { result ≡ played.DiskFault →
        HasRisen (D.faults disk.old) (D.faults disk.new) }
{
    // A chain has no more releases.
    for read in 0..MOST_RELEASES + 1 {
        let number = read + 1;
        if let Some(played) = play_next(rt, alloc, setup, board, custodian, disk, journal, number) {
            return played;
        }
    }
    unreachable!()
}
