// A server whose custodian writes its batches ahead.
//
// At the end the owner is taken apart into names, the lent disk too, as in `run_with_journal`: else
// nothing is known of what the borrow left.
//
// The disk may go to another thread, so in an answer `g.met.D.Disk` is of every world like this
// one, and is told which first (`serve_ready`).

ghost use Rattle.std.specs.Prelude.{◌≡◌, ◌≤◌, ◌<◌, ◌+◌, ◌^◌, All, List, None, [], drop, length};
ghost use Rattle.std.specs.Prelude.{take, true};
ghost use Rattle.tb_disk.specs.Moments.{KeepsPast};
ghost use Rattle.tb_host.specs.Hosting.{Hosts};
ghost use Rattle.tb_host.specs.Sessions.{AreHostedFrom, HostsFrom};
ghost use Rattle.tb_journal_file.specs.Files.{CanPut, EachStandsFor};
ghost use Rattle.tb_keep.specs.Chains.{batches_of};
ghost use Rattle.tb_keep.specs.JournalOwners.{keeper_of};
ghost use Rattle.tb_keep.specs.JournalRuns.{after_playing};
ghost use Rattle.tb_keep.specs.Publishers.{CanWriteAhead};
ghost use Rattle.tb_model.specs.Schemas.{shape_of};
ghost use Rattle.tb_release.specs.declared.edits.Edit.{Edit};
ghost use Rattle.tb_serve.specs.Each.{Each};
ghost use Rattle.tb_serve.specs.Places.{AreWithin};
ghost use Rattle.tb_serve.specs.Serves.{output};
ghost use Rattle.tb_serve.specs.Stages.{IsFresh, IsLeft, IsReady};
ghost use Rattle.tb_session.specs.Parties.{IsCustodianOf, IsOwnerOf, seen_by};
ghost use Rattle.tb_session.specs.declared.party.Party.TheVariants as party;

use crate::ending::end_hosting;
use std::sync::Wait;
use std::thread::Threads;
use tb_ahead::{Keeper, WriteAhead};
use tb_base::Status;
use tb_board::{Custodian, Named};
use tb_disk::Disk;
use tb_io::{Listen, Sink};
use tb_journal::Journal;
use tb_journal_file::JournalFile;
use tb_keep::{BoardPublisher, JournalFault, JournalOwner, Recovery, recover};
use tb_serve::{Places, Port, Readiness, prepare, serve_from, write_end};
use tb_session::{Custody, Owner, Setting};

// Serves the sessions of ports that are ready, at the first as the custodian, who holds no edits
// and writes its batches ahead.
fn serve_kept<
    B: Named + Send + Sync,
    W: WriteAhead + Send,
    N: Listen + Send,
    R: Threads + Wait + Sync,
>(
    setting: &Setting<'_, B, R>,
    custodian: Custodian,
    ahead: W,
    sessions: u32,
    ports: &mut [Port<N>],
) -> JournalOwner<W>
    requires own { IsCustodianOf B.name (shape_of setting.now.setup.now.schema) custodian [] }
    requires puts { W.IsReady ahead }
    requires some { 0 < length ports.old }
    requires can { All IsReady ports.old }
    ensures own { CanWriteAhead B.name (shape_of setting.now.setup.now.schema)
        result.keeper.party.custody.party }
    ensures puts { W.IsReady result.keeper.ahead }
    ensures left { Each (λ _. IsLeft) ports.old ports.new }
    // Wherever the custodian stood, the file stands for what the sessions lead to.
    ensures hosts { HostsFrom W.Continues W.live W.faults W.StandsFor setting.now.setup.now sessions
        (keeper_of (party.Custodian custodian []) ahead)
        (keeper_of result.keeper.party.custody.party result.keeper.ahead) ports.old ports.new }
{
    let custody = Custody::new(setting.alloc, custodian);
    let party = BoardPublisher::new(custody);
    let keeper = Keeper {
        party,
        ahead,
        alloc: setting.alloc,
    };
    // The lifetimes in the two settings differ, so one is lent anew.
    serve_from(&*setting, setting, sessions, JournalOwner { keeper }, ports)
}

// The number of the custodian's release, to which the batches of the journal's file lead and those
// that were published since.
fn release_of<B: Named, R: Threads + Wait + Sync>(
    setting: &Setting<'_, B, R>,
    custody: &Custody,
) -> u32
    requires { IsOwnerOf B.name (shape_of setting.now.setup.now.schema) custody.now.party }
    ensures { result ≡ length (seen_by custody.now.party).list }
{
    Owner::<Setting<'_, B, R>, B>::release(custody, setting)
}

// Serves the sessions of ports that are ready, with a journal that was recovered.
fn serve_ready<
    B: Named + Send + Sync,
    D: Disk + Send,
    O: Sink,
    N: Listen + Send,
    R: Threads + Wait + Sync,
>(
    setting: &Setting<'_, B, R>,
    custodian: Custodian,
    disk: &mut D,
    journal: Journal,
    places: Places,
    sessions: u32,
    out: &mut O,
    ports: &mut [Port<N>],
) -> Status
    requires own { IsCustodianOf B.name (shape_of setting.now.setup.now.schema) custodian [] }
    requires live { journal.live ≡ true }
    requires within { AreWithin places (length ports.old) }
    requires puts { CanPut (D.attached disk.old) (D.content disk.old) (D.may_leave disk.old)
        journal }
    requires some { 0 < length ports.old }
    requires few { length ports.old < 2 ^ 32 }
    requires can { All IsReady ports.old }
    ensures attached { D.attached disk.new ≡ true }
    ensures past { KeepsPast D.moment D.left_since disk.old disk.new }
    ensures left { Each (λ _. IsLeft) ports.old ports.new }
    // Whatever batches it has published, for which each file stands that a stop may leave.
    ensures served { (batches : List (List Edit))
        → custodian.writer.list ≡ batches_of custodian.writer.start.base batches
        → EachStandsFor (D.may_leave disk.old) batches None
        → AreHostedFrom (after_playing custodian.writer.start.base batches (D.moment disk.old)
        (D.faults disk.old))
        setting.now.setup.now custodian.writer.start.base places sessions ports.old ports.new (record {
          content = D.content disk.old;
          content_after = D.content disk.new;
          moment = D.moment disk.old;
          could_leave = D.may_leave disk.old;
          may_leave = D.may_leave disk.new;
          left_since = D.left_since disk.new;
          faults = D.faults disk.old;
          faults_after = D.faults disk.new;
        }) (output (O.taken out.old) (O.taken out.new) (O.faults out.old) (O.faults out.new))
        result }
{
    let ahead = JournalFile {
        disk: &mut *disk,
        journal,
    };
    let owner = serve_kept(setting, custodian, ahead, sessions, ports);
    let release = release_of(setting, &owner.keeper.party.custody);
    let live = owner.keeper.ahead.is_live();
    // What the disk is then is known of one that is taken apart.
    let JournalOwner { keeper } = owner;
    let Keeper {
        party: _,
        ahead,
        alloc: _,
    } = keeper;
    let JournalFile {
        disk: _lent,
        journal: _,
    } = ahead;
    end_hosting(out, places, ports, release, live)
}

// The whole call, over just the ports that are served.
fn serve_ports<
    B: Named + Send + Sync,
    D: Disk + Send,
    O: Sink,
    N: Listen + Send,
    R: Threads + Wait + Sync,
>(
    setting: &Setting<'_, B, R>,
    mut custodian: Custodian,
    disk: &mut D,
    places: Places,
    sessions: u32,
    out: &mut O,
    ports: &mut [Port<N>],
) -> Result<Status, JournalFault>
    requires own { IsCustodianOf B.name (shape_of setting.now.setup.now.schema) custodian [] }
    requires first { custodian.writer.list ≡ [] }
    requires attached { D.attached disk.old ≡ true }
    requires some { 0 < length ports.old }
    requires within { AreWithin places (length ports.old) }
    requires few { length ports.old < 2 ^ 32 }
    requires fresh { All IsFresh ports.old }
    ensures attached { D.attached disk.new ≡ true }
    ensures count { D.faults disk.old ≤ D.faults disk.new }
    ensures past { KeepsPast D.moment D.left_since disk.old disk.new }
    ensures hosts { Hosts setting.now.setup.now custodian.writer.start.base places sessions
        ports.old ports.new (record {
          content = D.content disk.old;
          content_after = D.content disk.new;
          moment = D.moment disk.old;
          could_leave = D.may_leave disk.old;
          may_leave = D.may_leave disk.new;
          left_since = D.left_since disk.new;
          faults = D.faults disk.old;
          faults_after = D.faults disk.new;
        }) (output (O.taken out.old) (O.taken out.new) (O.faults out.old) (O.faults out.new))
        result }
{
    let journal = match recover(setting, &mut custodian, disk) {
        Recovery::Recovered(journal) => journal,
        Recovery::Refused(fault) => return Err(fault),
        Recovery::DiskFault => return Ok(write_end(out, b"fault disk\n", Status::DiskFault)),
        Recovery::Memory => return Ok(write_end(out, b"fault memory\n", Status::Memory)),
    };
    match prepare(setting.alloc, places, ports) {
        Readiness::Ready => {
            Ok(serve_ready(
                setting, custodian, disk, journal, places, sessions, out, ports,
            ))
        }
        Readiness::NoMemory => Ok(write_end(out, b"fault memory\n", Status::Memory)),
        Readiness::NotBound => Ok(write_end(out, b"fault net\n", Status::NetFault)),
    }
}

/// Serves sessions with the journal in a disk's file, which was attached: opens it, publishes its
/// batches, and then serves the custodian's sessions at the first listener and analysts' at the
/// `workers` listeners after it, all over one board, each bound to its number by `places`. The
/// custodian is at release 0, and holds no edits. Those past these stay as they are.
///
/// Each batch that is published is written into the journal first. Where the disk fails, or memory
/// runs out behind that write, the journal isn't live any more: each `publish` whose batch follows
/// is then answered `unkept`, and all else is answered as ever. Sessions, binds and accepts are as
/// in `serve`; the journal is opened and played before the first bind.
///
/// `out` takes what it takes in `serve`, but `fault disk` last, and no `fault net`, where the
/// journal isn't live at the end. Only `fault disk` is written where the disk failed before the
/// first bind. A journal's file that is refused is an error, for which nothing is written. Memory
/// is taken before the first accept, as `recover` and `prepare` do, and then only for the replies.
pub fn serve_with_journal<
    B: Named + Send + Sync,
    D: Disk + Send,
    O: Sink,
    N: Listen + Send,
    R: Threads + Wait + Sync,
>(
    setting: &Setting<'_, B, R>,
    custodian: Custodian,
    disk: &mut D,
    places: Places,
    workers: u32,
    sessions: u32,
    out: &mut O,
    net: &mut [Port<N>],
) -> Result<Status, JournalFault>
    requires own { IsCustodianOf B.name (shape_of setting.now.setup.now.schema) custodian [] }
    requires first { custodian.writer.list ≡ [] }
    requires attached { D.attached disk.old ≡ true }
    requires there { workers < length net.old }
    requires few { workers < 65536 }
    requires within { AreWithin places (workers + 1) }
    requires fresh { All IsFresh net.old }
    ensures attached { D.attached disk.new ≡ true }
    ensures count { D.faults disk.old ≤ D.faults disk.new }
    ensures past { KeepsPast D.moment D.left_since disk.old disk.new }
    ensures hosts { Hosts setting.now.setup.now custodian.writer.start.base places sessions
        (take (workers + 1) net.old) (take (workers + 1) net.new) (record {
          content = D.content disk.old;
          content_after = D.content disk.new;
          moment = D.moment disk.old;
          could_leave = D.may_leave disk.old;
          may_leave = D.may_leave disk.new;
          left_since = D.left_since disk.new;
          faults = D.faults disk.old;
          faults_after = D.faults disk.new;
        }) (output (O.taken out.old) (O.taken out.new) (O.faults out.old) (O.faults out.new))
        result }
    ensures rest { drop (workers + 1) net.new ≡ drop (workers + 1) net.old }
{
    let count = workers as usize + 1;
    let (ports, _) = net.split_at_mut(count);
    serve_ports(setting, custodian, disk, places, sessions, out, ports)
}
