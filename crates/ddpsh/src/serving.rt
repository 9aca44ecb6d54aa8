// The loop over a script.
ghost use Rattle.std.specs.Prelude.{◌≡◌, ◌≤◌, ◌<◌, ◌⊎◌, ◌^◌, ◌||◌, false, ℕ, List, Some, [], length};
ghost use Rattle.std.specs.Prelude.{IfOk, OnOk, IsErrOf, vec_capacity};
ghost use Rattle.vdisk.specs.Causes.{Rose};
ghost use Rattle.cmdlet_line.specs.Lines.{line_of};
ghost use Rattle.script_items.specs.declared.limits.TheConstants.{MOST_SCRIPT, MOST_KEPT};
ghost use Rattle.script_items.specs.Input.{ahead, GaveTooMany};
ghost use Rattle.ddpsh.specs.Clocks.{ReadsClock, ReadsOften, MayCut};
ghost use Rattle.script_items.specs.Script.{item_of, volume_text};
ghost use Rattle.volume_core.specs.Volumes.{disk_of, view_now, stopped, IsKept};
ghost use Rattle.ddpsh.specs.Served.{StaysSame};
ghost use Rattle.ddpsh.specs.Sessions.{is_over, is_last};
ghost use Rattle.plain_volume.specs.Volume.{Volume as PlainVolume};
ghost use Rattle.ddpsh.specs.Ends.{stop_end, fault_end, kind_refused, kind_counted};
ghost use Rattle.ddpsh.specs.Steps.{session_end, IsSessionEnd, DoesStep, DoesEndStep, SessionRun};
ghost use Rattle.volume_inside.specs.declared.mount_fault.MountFault.{MountFault};

use crate::acks::{Ack, keep};
use crate::ending::{End, Ran};
use crate::session::{Session, wants_are_spent};
use answer_text::{Answered, SessionFault};
use script_items::{Input, MOST_KEPT, ScriptFault, read_item};
use std::alloc::{AllocError, Global};
use vdisk::{Clock, Disk, Sink, Source};

fn end_of_stop(stop: SessionFault) -> End
    ensures { result ≡ stop_end stop }
{
    match stop {
        SessionFault::Device => End::Device,
        SessionFault::Memory => End::Memory,
        SessionFault::Sink => End::Sink,
    }
}

fn end_of_fault(fault: ScriptFault) -> End
    ensures { result ≡ fault_end fault }
{
    match fault {
        ScriptFault::Failed => End::Source,
        ScriptFault::TooLong => End::TooLong,
        ScriptFault::Memory => End::Memory,
    }
}

/// How a run ends whose script was read to its end, by how the session ended.
fn end_of_session(ended: Result<Answered, SessionFault>) -> End
    ensures { result ≡ session_end ended }
{
    match ended {
        Ok(Answered::Refused) => End::Worn,
        Ok(_) => End::Over,
        Err(stop) => end_of_stop(stop),
    }
}

fn is_refusal(refused: bool, answered: Answered) -> bool
    ensures { result ≡ (refused || kind_refused answered) }
{
    match answered {
        Answered::Refused => true,
        Answered::Ok => refused,
        Answered::Silent => refused,
        Answered::Exit => refused,
    }
}

/// Whether no further line may come.
fn is_last(answered: Answered) -> bool
    ensures { result ≡ is_last answered }
{
    match answered {
        Answered::Exit => true,
        Answered::Ok => false,
        Answered::Refused => false,
        Answered::Silent => false,
    }
}

fn counted(answered: Answered) -> u64
    ensures kind { result ≡ kind_counted answered }
    ensures small { result ≤ 1 }
{
    match answered {
        Answered::Refused => 1,
        Answered::Ok => 1,
        Answered::Silent => 0,
        Answered::Exit => 1,
    }
}

/// Room for what is read ahead, and for a line.
fn rooms(alloc: Global) -> Result<(Input, Vec<u8>), AllocError>
    ensures ahead { IfOk result (λ rooms. ahead rooms.0 ≡ []) }
    ensures came { IfOk result (λ rooms. rooms.0.came ≡ 0) }
    ensures room { IfOk result (λ rooms. MOST_KEPT ≤ vec_capacity rooms.1) }
{
    Ok((Input::new(alloc)?, Vec::with_capacity(alloc, MOST_KEPT)?))
}

/// Serves one line, and keeps what it acknowledges. Room for that is made before.
fn serve_line<K: Sink, D: Disk, C: Clock>(
    alloc: Global,
    session: &mut Session<D>,
    line: &[u8],
    payload: &[u8],
    out: &mut K,
    clock: &mut C,
    acks: &mut Vec<Ack>,
) -> Result<Answered, SessionFault>
    requires { is_over session.old ≡ false }
    ensures told { (w : PlainVolume) → IsKept session.old.volume w →
        DoesStep (item_of (line_of session.old.text line.now) payload.now) session.old session.new (K.held out.old) (K.held out.new) result acks.old.items acks.new.items }
    ensures read { ReadsClock (line_of session.old.text line.now) (C.answers clock.old) (C.answers clock.new)
        session.old.second session.new.second result
        ⊎ (IsErrOf result SessionFault.Memory × (C.answers clock.new ≡ C.answers clock.old)) }
    ensures text { session.new.text ≡ session.old.text }
    ensures same { StaysSame session.old.volume session.new.volume }
    ensures runs { IfOk result (λ a. is_over session.new ≡ is_last a) }
    ensures goes_on { OnOk result (stopped session.new.volume ≡ false) }
    ensures disk_later { (disk_of session.old.volume).faults ≤ (disk_of session.new.volume).faults }
    ensures clock_later { C.faults clock.old ≤ C.faults clock.new }
    ensures sink_later { K.faults out.old ≤ K.faults out.new }
    ensures device { IsErrOf result SessionFault.Device →
        Rose (disk_of session.old.volume).faults (disk_of session.new.volume).faults
        ⊎ Rose (C.faults clock.old) (C.faults clock.new) }
    ensures sink { IsErrOf result SessionFault.Sink → Rose (K.faults out.old) (K.faults out.new) }
{
    if acks.reserve(1).is_err() {
        return Err(SessionFault::Memory);
    }
    let answered = session.line(alloc, line, payload, out, clock);
    keep(acks, session.ack());
    answered
}

/// Ends a session whose script is at its end, and keeps what that acknowledges. Room for that is made before.
fn end_session<D: Disk>(session: &mut Session<D>, acks: &mut Vec<Ack>) -> End
    requires { is_over session.old ≡ false }
    ensures told { (w : PlainVolume) → IsKept session.old.volume w →
        DoesEndStep session.old session.new result acks.old.items acks.new.items }
    ensures same { StaysSame session.old.volume session.new.volume }
    ensures disk_later { (disk_of session.old.volume).faults ≤ (disk_of session.new.volume).faults }
    ensures device { result ≡ End.Device →
        Rose (disk_of session.old.volume).faults (disk_of session.new.volume).faults }
    ensures kinds { IsSessionEnd result }
{
    if acks.reserve(1).is_err() {
        return End::Memory;
    }
    let ended = session.end();
    keep(acks, session.ack());
    end_of_session(ended)
}

/// Serves a script to its end, or to an `exit`. Answers how it ended, and what was acknowledged.
pub(crate) fn serve<S: Source, K: Sink, D: Disk, C: Clock>(
    alloc: Global,
    session: &mut Session<D>,
    script: &mut S,
    out: &mut K,
    clock: &mut C,
) -> (Ran, Vec<Ack>)
    requires running { is_over session.old ≡ false }
    requires fresh { session.old.calls ≡ 0 }
    requires text { session.old.text ≡ volume_text }
    ensures run { IsKept session.old.volume (view_now session.old.volume) → (s : List ℕ) →
        S.left script.old ≡ Some s → SessionRun session.old session.new s (K.held out.old) (K.held out.new) result.0
        result.1.items }
    ensures clock { IsKept session.old.volume (view_now session.old.volume) → (s : List ℕ) →
        S.left script.old ≡ Some s →
        ReadsOften result.0.lines (MayCut result.0.end) (C.answers clock.old) (C.answers clock.new) }
    ensures same { StaysSame session.old.volume session.new.volume }
    ensures disk_later { (disk_of session.old.volume).faults ≤ (disk_of session.new.volume).faults }
    ensures clock_later { C.faults clock.old ≤ C.faults clock.new }
    ensures sink_later { K.faults out.old ≤ K.faults out.new }
    ensures source_later { S.faults script.old ≤ S.faults script.new }
    ensures device { result.0.end ≡ End.Device →
        Rose (disk_of session.old.volume).faults (disk_of session.new.volume).faults
        ⊎ Rose (C.faults clock.old) (C.faults clock.new) }
    ensures sink { result.0.end ≡ End.Sink → Rose (K.faults out.old) (K.faults out.new) }
    ensures source { result.0.end ≡ End.Source → Rose (S.faults script.old) (S.faults script.new) }
    ensures too_long { (s : List ℕ) → S.left script.old ≡ Some s → result.0.end ≡ End.TooLong → MOST_SCRIPT < length s }
    ensures many { result.0.end ≡ End.TooLong → GaveTooMany (S.given script.old) (S.given script.new) }
    ensures opened { (fault : MountFault) → result.0.end ≡ End.Refused fault → ⊥ }
{
    wants_are_spent(session);
    let mut refused = false;
    let mut lines = 0u64;
    let mut acks = Vec::new(alloc);
    let (mut input, mut line) = match rooms(alloc) {
        Ok(rooms) => rooms,
        Err(_) => return (Ran::new(End::Memory, refused, lines), acks),
    };
    let mut payload = Vec::new(alloc);
    'items: loop {
        match read_item(script, &mut input, &mut line, &mut payload) {
            Err(fault) => return (Ran::new(end_of_fault(fault), refused, lines), acks),
            Ok(some) => {
                if !some {
                    let end = end_session(session, &mut acks);
                    return (Ran::new(end, refused, lines), acks);
                }
            }
        }
        match serve_line(alloc, session, &line, &payload, out, clock, &mut acks) {
            Err(stop) => return (Ran::new(end_of_stop(stop), refused, lines), acks),
            Ok(answered) => {
                wants_are_spent(session);
                refused = is_refusal(refused, answered);
                lines += counted(answered);
                if is_last(answered) {
                    return (Ran::new(End::Exit, refused, lines), acks);
                }
            }
        }
        session.round().unwrap();
    }
}
