// A session: lines served one by one over a mounted volume.
ghost use Rattle.std.specs.Prelude.{◌≡◌, ◌≤◌, ◌⊎◌, false, true, None, Some, Ok, is_some, IfOk, IfSome, OnOk, IsErrOf, IsTrue, IsOk};
ghost use Rattle.vdisk.specs.Causes.{Rose, HasCause};
ghost use Rattle.cmdlet_line.specs.Lines.{line_of};
ghost use Rattle.cmdlet_line.specs.Spelled.{AreInRange};
ghost use Rattle.script_items.specs.Script.{item_of};
ghost use Rattle.plain_volume.specs.Volume.{Volume as PlainVolume};
ghost use Rattle.volume_core.specs.Volumes.{device_of, disk_of, stopped, IsKept};
ghost use Rattle.ddpsh.specs.Bounds.{WantsAreSpent};
ghost use Rattle.ddpsh.specs.Served.{asked_as, StaysSame};
ghost use Rattle.ddpsh.specs.Answers.{makes_none, may_stop};
ghost use Rattle.ddpsh.specs.Clocks.{IsRead, KeepsSecond, ReadsClock};
ghost use Rattle.ddpsh.specs.Saying.{is_flushed, ended_by};

use crate::acks::Ack;
use crate::calls::answer;
use answer_text::{Answered, SessionFault, put_all};
use cmdlet_line::laws::what_is_asked_is_in_range;
use cmdlet_line::{Line, LineFault, parse};
use plain_volume::Fault;
use std::alloc::Global;
use vdisk::{Clock, Disk, Failed, Sink};
use volume_core::Volume;
use volume_core::laws::what_is_wanting_is_spent;

/// A mounted volume with what a script over it needs: its volume text, and how many calls were made.
#[derive(Drop)]
pub struct Session<D: Disk> {
    volume: Volume<D>,
    text: [u8; 2],
    turns: u32,
    cores: u32,
    /// The user calls made so far, refused ones among them.
    calls: u64,
    /// The last reading of the clock, 0 before the first.
    second: u64,
    /// What the last line acknowledged, or the end of the script.
    ack: Option<Ack>,
    /// Whether the volume was let go, or its script is at its end.
    over: bool,
    /// The room of the last answer, which the next one goes into; None before the first.
    room: Option<Vec<u8>>,
}

/// Reads the clock, but for a line that asks nothing: that leaves the last reading.
fn read_clock<C: Clock>(
    clock: &mut C,
    asked: Result<Line, LineFault>,
    second: u64,
) -> Result<u64, Failed>
    ensures read { IsRead (asked_as asked.entry) (C.answers clock.old) (C.answers clock.new) result }
    ensures kept { IfOk result (λ now. KeepsSecond (asked_as asked.entry) (Ok now) second now) }
    ensures cause { HasCause (C.faults clock.old) (C.faults clock.new) result }
{
    match asked {
        Ok(Line::Silent) => Ok(second),
        _ => clock.now(),
    }
}

/// Room for an answer: what was kept of the last one, with whatever it holds.
fn answer_room(kept: Option<Vec<u8>>, alloc: Global) -> Vec<u8>
    ensures { IfSome kept (λ room. result ≡ room) }
{
    match kept {
        Some(room) => room,
        None => Vec::new(alloc),
    }
}

/// Whether the line is a `flush` that was answered `ok`.
fn is_flushed(asked: Result<Line, LineFault>, answered: Answered) -> bool
    ensures { result ≡ is_flushed (asked_as asked.entry) answered }
{
    match asked {
        Ok(Line::Flush) => answered == Answered::Ok,
        _ => false,
    }
}

/// Where a resource is wanting for a call on the session's volume, it is spent.
pub(crate) fn wants_are_spent<D: Disk>(session: &Session<D>)
    ensures { WantsAreSpent session.now.volume }
{
    what_is_wanting_is_spent(&session.volume);
}

/// How a session ends where its last flush is refused.
fn ended_by(fault: Fault) -> Result<Answered, SessionFault>
    requires { (fault ≡ Fault.Failed) ⊎ (fault ≡ Fault.Worn) }
    ensures { result ≡ ended_by fault }
{
    match fault {
        Fault::Failed => Err(SessionFault::Device),
        Fault::Worn => Ok(Answered::Refused),
        _ => unreachable!(),
    }
}

impl<D: Disk> Session<D> {
    ghost use Rattle.ddpsh.specs.Sessions.{is_over, is_last, is_volume_text, ack_now, let_go, acknowledge, HasCome, IsSameBeside, DoesLine, DoesEnd};

    /// A session over a volume on which no job was started since its mount or format. The text is a letter and a
    /// colon. So many turns of each running job follow an answered line, and batches of jobs are worked on by so many
    /// threads; in this version there are no jobs.
    pub fn new(volume: Volume<D>, text: [u8; 2], turns: u32, cores: u32) -> Session<D>
        requires { IsTrue (is_volume_text text) }
        ensures volume { result.volume ≡ volume }
        ensures text { result.text ≡ text }
        ensures calls { result.calls ≡ 0 }
        ensures ack { result.ack ≡ None }
        ensures over { is_over result ≡ stopped volume }
    {
        Session {
            volume,
            text,
            turns,
            cores,
            calls: 0,
            second: 0,
            ack: None,
            over: false,
            room: None,
        }
    }

    /// Whether no further line may come: after an `exit` that let the volume go, after `end`, and where a write or a
    /// sync of the disk has failed.
    pub fn is_over(&self) -> bool
        ensures { result ≡ is_over self.now }
    {
        self.over || self.volume.is_stopped()
    }

    /// What the last line, or the end, acknowledged: None where it was no `flush` that was answered `ok`, and let no
    /// volume go.
    pub fn ack(&self) -> Option<Ack>
        ensures { result ≡ self.now.ack }
    {
        self.ack
    }

    /// The disk's moment now, and the number of calls so far.
    fn ack_now(&self) -> Ack
        ensures { result ≡ ack_now self.now }
    {
        Ack {
            moment: self.volume.moment(),
            calls: self.calls,
        }
    }

    /// Hands the disk back, with whatever is on it.
    pub fn into_disk(self) -> D
        ensures { result ≡ device_of self.volume }
    {
        self.volume.into_disk()
    }

    /// After an `exit` that made all durable the session is over, and that is acknowledged.
    fn let_go(&mut self, answered: Answered)
        ensures { self.new ≡ let_go answered self.old }
    {
        if answered == Answered::Exit {
            self.over = true;
            self.ack = Some(self.ack_now());
        }
    }

    /// Acknowledges all calls so far, where they are durable.
    fn acknowledge(&mut self, durable: bool)
        ensures { self.new ≡ acknowledge durable self.old }
    {
        if durable {
            self.ack = Some(self.ack_now());
        }
    }

    /// Keeps the room of an answer for the next one.
    fn keep_room(&mut self, room: Vec<u8>)
        ensures { self.new ≡ record self.old { room = Some room } }
    {
        self.room = Some(room);
    }

    /// Serves what a line asks, and makes the text of its answer.
    fn attempt<C: Clock>(
        &mut self,
        alloc: Global,
        asked: Result<Line, LineFault>,
        payload: &[u8],
        text: &mut Vec<u8>,
        clock: &mut C,
    ) -> Result<Answered, SessionFault>
        requires running { stopped self.old.volume ≡ false }
        requires fits { IfOk (asked_as asked) AreInRange }
        ensures told { (w : PlainVolume) → IsKept self.old.volume w →
            HasCome (item_of (asked_as asked.entry) payload.now) self.old self.new result text.new.items }
        ensures rest { IsSameBeside self.old self.new }
        ensures idle { makes_none (item_of (asked_as asked.entry) payload.now) ≡ true →
            HasCome (item_of (asked_as asked.entry) payload.now) self.old self.new result text.new.items }
        ensures stays { may_stop (item_of (asked_as asked.entry) payload.now) ≡ false →
            stopped self.new.volume ≡ false }
        ensures read { ReadsClock (asked_as asked.entry) (C.answers clock.old) (C.answers clock.new) self.old.second
            self.new.second result }
        ensures same { StaysSame self.old.volume self.new.volume }
        ensures runs { OnOk result (stopped self.new.volume ≡ false) }
        ensures disk_later { (disk_of self.old.volume).faults ≤ (disk_of self.new.volume).faults }
        ensures clock_later { C.faults clock.old ≤ C.faults clock.new }
        ensures device { IsErrOf result SessionFault.Device →
            Rose (disk_of self.old.volume).faults (disk_of self.new.volume).faults
            ⊎ Rose (C.faults clock.old) (C.faults clock.new) }
        ensures no_sink { IsErrOf result SessionFault.Sink → ⊥ }
    {
        match read_clock(clock, asked, self.second) {
            Ok(second) => self.second = second,
            Err(_) => return Err(SessionFault::Device),
        }
        let attempt = answer(&mut self.volume, alloc, asked, payload, text);
        self.calls = self.calls.saturating_add(attempt.made);
        attempt.ended
    }

    /// Serves one line: its calls are made, and its answer is written. The line comes without its newline and the
    /// carriage return before that, or by its first 4,097 bytes where it has more. `payload` has what stands behind a
    /// line that takes one: up to COUNT bytes, and the byte in the newline's place; other lines do not look at it. The
    /// clock is read once for a line that is answered, before its calls. The room of the answer is kept for the next
    /// line.
    pub fn line<K: Sink, C: Clock>(
        &mut self,
        alloc: Global,
        line: &[u8],
        payload: &[u8],
        out: &mut K,
        clock: &mut C,
    ) -> Result<Answered, SessionFault>
        requires { is_over self.old ≡ false }
        ensures told { (w : PlainVolume) → IsKept self.old.volume w →
            DoesLine (item_of (line_of self.old.text line.now) payload.now) self.old self.new (K.held out.old)
            (K.held out.new) result }
        ensures idle { makes_none (item_of (line_of self.old.text line.now) payload.now) ≡ true →
            DoesLine (item_of (line_of self.old.text line.now) payload.now) self.old self.new (K.held out.old)
            (K.held out.new) result }
        ensures read { ReadsClock (line_of self.old.text line.now) (C.answers clock.old) (C.answers clock.new)
            self.old.second self.new.second result }
        ensures let_go { IsErrOf result SessionFault.Sink → is_over self.new ≡ is_some self.new.ack }
        ensures stays { may_stop (item_of (line_of self.old.text line.now) payload.now) ≡ false →
            IsErrOf result SessionFault.Device → is_over self.new ≡ false }
        ensures text { self.new.text ≡ self.old.text }
        ensures same { StaysSame self.old.volume self.new.volume }
        ensures runs { IfOk result (λ a. is_over self.new ≡ is_last a) }
        ensures goes_on { OnOk result (stopped self.new.volume ≡ false) }
        ensures disk_later { (disk_of self.old.volume).faults ≤ (disk_of self.new.volume).faults }
        ensures clock_later { C.faults clock.old ≤ C.faults clock.new }
        ensures sink_later { K.faults out.old ≤ K.faults out.new }
        ensures device { IsErrOf result SessionFault.Device →
            Rose (disk_of self.old.volume).faults (disk_of self.new.volume).faults
            ⊎ Rose (C.faults clock.old) (C.faults clock.new) }
        ensures sink { IsErrOf result SessionFault.Sink → Rose (K.faults out.old) (K.faults out.new) }
    {
        what_is_asked_is_in_range();
        self.ack = None;
        let mut text = answer_room(self.room.take(), alloc);
        let asked = parse(line, self.text);
        let answered = match self.attempt(alloc, asked, payload, &mut text, clock) {
            Ok(answered) => answered,
            Err(fault) => return Err(fault),
        };
        let written = put_all(out, &text);
        self.keep_room(text);
        self.let_go(answered);
        match written {
            Ok(()) => {
                self.acknowledge(is_flushed(asked, answered));
                Ok(answered)
            }
            Err(_) => Err(SessionFault::Sink),
        }
    }

    /// Makes the turns of jobs that follow an answered line: in this version there are none.
    pub fn round(&mut self) -> Result<(), SessionFault>
        requires { is_over self.old ≡ false }
        ensures idle { self.new ≡ self.old }
        ensures ok { IsOk result }
    {
        Ok(())
    }

    /// Ends the session where its script is at its end: makes all durable, so that the volume may be let go, and prints
    /// nothing. Answers `Refused` where an epoch is wanting for that.
    pub fn end(&mut self) -> Result<Answered, SessionFault>
        requires { is_over self.old ≡ false }
        ensures told { (w : PlainVolume) → IsKept self.old.volume w → DoesEnd self.old self.new result }
        ensures over { self.new.over ≡ true }
        ensures second { self.new.second ≡ self.old.second }
        ensures same { StaysSame self.old.volume self.new.volume }
        ensures disk_later { (disk_of self.old.volume).faults ≤ (disk_of self.new.volume).faults }
        ensures device { IsErrOf result SessionFault.Device →
            Rose (disk_of self.old.volume).faults (disk_of self.new.volume).faults }
        ensures no_sink { IsErrOf result SessionFault.Sink → ⊥ }
    {
        self.ack = None;
        self.over = true;
        match self.volume.flush() {
            Ok(()) => {
                self.ack = Some(self.ack_now());
                Ok(Answered::Ok)
            }
            Err(fault) => ended_by(fault),
        }
    }
}
