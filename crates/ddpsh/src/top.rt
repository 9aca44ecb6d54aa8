// The top call.
ghost use Rattle.std.specs.Prelude.{◌≡◌, ◌≤◌, ◌<◌, ◌⊎◌, ◌↔◌, true, false, ℕ, List, Some, None, IsNone, IsTrue, length};
ghost use Rattle.vdisk.specs.Causes.{Rose};
ghost use Rattle.volume_inside.specs.declared.mount_fault.MountFault.{MountFault};
ghost use Rattle.ddpsh.specs.declared.commands.Command.{Command};
ghost use Rattle.script_items.specs.declared.limits.TheConstants.{MOST_SCRIPT};
ghost use Rattle.answer_text.specs.Answers.{Refused, text_of};
ghost use Rattle.ddpsh.specs.Clocks.{ReadsOften, IsCutStatus};
ghost use Rattle.ddpsh.specs.Commands.{Asks, IsInRange, usage};
ghost use Rattle.ddpsh.specs.Complete.{CanOpen, DidNotRise, IsComplete};
ghost use Rattle.script_items.specs.Input.{GaveTooMany};
ghost use Rattle.ddpsh.specs.Opens.{IsOpeningFault, is_reason};
ghost use Rattle.ddpsh.specs.Outcomes.{last_line, mount_text};
ghost use Rattle.answer_text.specs.Told.{IsPrinted};
ghost use Rattle.volume_core.specs.Volumes.{device_of, disk_of, view_now, stopped, IsKept};
ghost use Rattle.ddpsh.specs.Whole.{IsRun, IsServedRun, IsRefusedRun, HasEnded, IsEarly, IsEarlyStatus, IsServedStatus};

use crate::acks::Acks;
use crate::commands::{Command, command_of, usage};
use crate::ending::{End, Ran};
use crate::opening::{end_of_refusal, open};
use crate::serving::serve;
use crate::session::Session;
use answer_text::put_all;
use cmdlet_line::Words;
use script_items::VOLUME;
use std::alloc::Global;
use vdisk::{Clock, Disk, Sink, Source};
use volume_core::Volume;
use volume_inside::laws::an_image_has_one_inside;
use volume_tables::MountFault;

/// What a run of the program comes to.
#[derive(Drop)]
pub struct Outcome {
    /// The exit status: 0 where every line was accepted, 1 where some line was refused or the volume could not be let
    /// go, 2 for other words than the command's, 3 where the disk or the clock failed, 4 for want of memory, 5 where
    /// the image is no volume or longer than asked, 6 where the sink failed, 7 where the source failed or is too long.
    pub status: u8,
    /// How many answers were written whole.
    pub lines: u64,
    /// The disk's moment when the volume stood open, where one was opened.
    pub opened: Option<u64>,
    /// What was acknowledged as durable: by each `flush` that was answered `ok`, and when the volume was let go.
    pub acks: Acks,
}

/// The last line of a run; that of a refusal is handed in.
fn last_text(end: End, refusal: &[u8]) -> &[u8]
    requires { (fault : MountFault) → end ≡ End.Refused fault → refusal.now ≡ text_of (Refused (mount_text fault)) }
    ensures { result.now ≡ last_line end }
{
    match end {
        End::Over => b"",
        End::Exit => b"",
        End::Worn => b"",
        End::Sink => b"",
        End::Device => b"fault device\n",
        End::Memory => b"fault memory\n",
        End::Source => b"fault source\n",
        End::TooLong => b"fault script too long\n",
        End::Refused(_) => refusal,
    }
}

/// Prints a last line; a sink that fails here changes nothing.
fn print_last<K: Sink>(out: &mut K, text: &[u8])
    ensures printed { IsPrinted (K.held out.old) (K.faults out.old) text.now (K.held out.new) (K.faults out.new) }
    ensures later { K.faults out.old ≤ K.faults out.new }
{
    let _ = put_all(out, text);
}

/// The outcome where nothing was served.
fn early(alloc: Global, status: u8) -> Outcome
    ensures { IsEarly status result }
{
    Outcome {
        status,
        lines: 0,
        opened: None,
        acks: Acks::from_list(Vec::new(alloc)),
    }
}

/// Tells why no volume was opened.
fn refuse<K: Sink>(alloc: Global, fault: MountFault, out: &mut K) -> Outcome
    ensures told { IsRefusedRun fault (K.held out.old) (K.held out.new) (K.faults out.old) (K.faults out.new) result }
    ensures later { K.faults out.old ≤ K.faults out.new }
{
    let mut text = Vec::new(alloc);
    let end = end_of_refusal(fault, &mut text);
    print_last(out, last_text(end, &text));
    early(alloc, Ran::new(end, false, 0).status())
}

/// Serves the script over a volume, and hands the disk back.
fn serve_script<S: Source, K: Sink, D: Disk, C: Clock>(
    alloc: Global,
    volume: Volume<D>,
    script: &mut S,
    out: &mut K,
    clock: &mut C,
) -> (D, Outcome)
    requires { stopped volume ≡ false }
    ensures run { IsKept volume (view_now volume) → (s : List ℕ) →
        S.left script.old ≡ Some s → IsServedRun volume (D.state result.0) s (K.held out.old) (K.held out.new)
        (K.faults out.old) (K.faults out.new) result.1 }
    ensures clock { IsKept volume (view_now volume) → (s : List ℕ) → S.left script.old ≡ Some s →
        ReadsOften result.1.lines (IsCutStatus result.1.status) (C.answers clock.old) (C.answers clock.new) }
    ensures ended { HasEnded (K.held out.new) (K.faults out.old) (K.faults out.new) result.1 }
    ensures same { (x : D) → D.is_same x (device_of volume) → D.is_same x result.0 }
    ensures status { IsServedStatus result.1.status }
    ensures opened { result.1.opened ≡ Some (disk_of volume).moment }
    ensures device { result.1.status ≡ 3 → Rose (disk_of volume).faults (D.state result.0).faults
        ⊎ Rose (C.faults clock.old) (C.faults clock.new) }
    ensures sink { result.1.status ≡ 6 → Rose (K.faults out.old) (K.faults out.new) }
    ensures source { result.1.status ≡ 7 → Rose (S.faults script.old) (S.faults script.new)
        ⊎ (GaveTooMany (S.given script.old) (S.given script.new)
        × ((s : List ℕ) → S.left script.old ≡ Some s → MOST_SCRIPT < length s)) }
{
    let opened = volume.moment();
    let mut session = Session::new(volume, VOLUME, 0, 1);
    let (ran, acks) = serve(alloc, &mut session, script, out, clock);
    print_last(out, last_text(ran.end, b""));
    let outcome = Outcome {
        status: ran.status(),
        lines: ran.lines,
        opened: Some(opened),
        acks: Acks::from_list(acks),
    };
    (session.into_disk(), outcome)
}

/// Opens the volume, serves the script over it, and hands the disk back.
fn run_over<S: Source, K: Sink, D: Disk, C: Clock>(
    alloc: Global,
    command: Command,
    script: &mut S,
    out: &mut K,
    disk: D,
    clock: &mut C,
) -> (D, Outcome)
    requires { IsInRange command }
    ensures run { IsTrue (D.state disk).tells → (s : List ℕ) → S.left script.old ≡ Some s →
        IsRun command (D.state disk) (D.state result.0) s (K.held out.old) (K.held out.new) (K.faults out.old)
        (K.faults out.new) result.1 }
    ensures clock { IsTrue (D.state disk).tells → (s : List ℕ) → S.left script.old ≡ Some s →
        ReadsOften result.1.lines (IsCutStatus result.1.status) (C.answers clock.old) (C.answers clock.new) }
    ensures ended { HasEnded (K.held out.new) (K.faults out.old) (K.faults out.new) result.1 }
    ensures same { D.is_same disk result.0 }
    ensures words { result.1.status ≡ 2 → ⊥ }
    ensures unread { IsNone result.1.opened → script.new ≡ script.old }
    ensures refused { result.1.status ≡ 5 →
        (fault : MountFault) × IsOpeningFault command (D.state disk) (D.state result.0) fault × (is_reason fault ≡ true) }
    ensures opened { IsNone result.1.opened → IsEarlyStatus result.1.status }
    ensures device { result.1.status ≡ 3 → Rose (D.state disk).faults (D.state result.0).faults
        ⊎ Rose (C.faults clock.old) (C.faults clock.new) }
    ensures sink { result.1.status ≡ 6 → Rose (K.faults out.old) (K.faults out.new) }
    ensures source { result.1.status ≡ 7 → Rose (S.faults script.old) (S.faults script.new)
        ⊎ (GaveTooMany (S.given script.old) (S.given script.new)
        × ((s : List ℕ) → S.left script.old ≡ Some s → MOST_SCRIPT < length s)) }
{
    match open(alloc, command, disk) {
        Ok(volume) => serve_script(alloc, volume, script, out, clock),
        Err((back, fault)) => (back, refuse(alloc, fault, out)),
    }
}

/// Mounts the image on the disk, or makes a fresh volume on it, and serves a script over it, line by line; the answers
/// go to the sink. The end of the script and `exit` make all durable and let the volume go. A fault of the disk, the
/// clock, the source or the sink ends the run, and so does want of memory.
pub fn run<S: Source, K: Sink, D: Disk, C: Clock>(
    alloc: Global,
    words: &Words,
    script: &mut S,
    out: &mut K,
    disk: &mut D,
    clock: &mut C,
) -> Outcome
    ensures run { (command : Command) → Asks words.now command → IsTrue (D.state disk.old).tells → (s : List ℕ) →
        S.left script.old ≡ Some s → IsRun command (D.state disk.old) (D.state disk.new) s (K.held out.old)
        (K.held out.new) (K.faults out.old) (K.faults out.new) result }
    ensures clock { IsTrue (D.state disk.old).tells → (s : List ℕ) → S.left script.old ≡ Some s →
        ReadsOften result.lines (IsCutStatus result.status) (C.answers clock.old) (C.answers clock.new) }
    ensures words { (result.status ≡ 2) ↔ ((command : Command) → Asks words.now command → ⊥) }
    ensures usage { result.status ≡ 2 →
        IsPrinted (K.held out.old) (K.faults out.old) usage (K.held out.new) (K.faults out.new) }
    ensures untouched { result.status ≡ 2 → (disk.new ≡ disk.old) × (clock.new ≡ clock.old) }
    ensures unread { IsNone result.opened → script.new ≡ script.old }
    ensures ended { (command : Command) → Asks words.now command →
        HasEnded (K.held out.new) (K.faults out.old) (K.faults out.new) result }
    ensures opened { IsNone result.opened → IsEarlyStatus result.status }
    ensures refused { (command : Command) → Asks words.now command → result.status ≡ 5 → (fault : MountFault)
        × IsOpeningFault command (D.state disk.old) (D.state disk.new) fault × (is_reason fault ≡ true) }
    ensures device { result.status ≡ 3 → Rose (D.state disk.old).faults (D.state disk.new).faults
        ⊎ Rose (C.faults clock.old) (C.faults clock.new) }
    ensures sink { result.status ≡ 6 → Rose (K.faults out.old) (K.faults out.new) }
    ensures source { result.status ≡ 7 → Rose (S.faults script.old) (S.faults script.new)
        ⊎ (GaveTooMany (S.given script.old) (S.given script.new)
        × ((s : List ℕ) → S.left script.old ≡ Some s → MOST_SCRIPT < length s)) }
    ensures complete { (command : Command) → Asks words.now command → CanOpen command (D.state disk.old) →
        DidNotRise (D.state disk.old).faults (D.state disk.new).faults →
        DidNotRise (C.faults clock.old) (C.faults clock.new) → DidNotRise (K.faults out.old) (K.faults out.new) →
        DidNotRise (S.faults script.old) (S.faults script.new) → (s : List ℕ) → S.left script.old ≡ Some s →
        IsComplete s result.status }
{
    an_image_has_one_inside();
    match command_of(words) {
        None => {
            print_last(out, usage());
            early(alloc, 2)
        }
        Some(command) => {
            let (back, outcome) = run_over(alloc, command, script, out, &mut *disk, clock);
            // The disk that came back is the one that was lent.
            let _size = back.size();
            outcome
        }
    }
}
