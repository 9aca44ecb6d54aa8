// One line with what stands behind it, served by a volume.
ghost use Rattle.std.specs.Prelude.{◌≡◌, ◌<◌, false, true, Some, Ok, replicate, IfOk, OnOk, OnErr, IsErrOf};
ghost use Rattle.cmdlet_line.specs.Lines.{Create, Write, Read, Fill, Length, Rename, Delete, Digest, Stat, Flush, Exit, ask_of};
ghost use Rattle.cmdlet_line.specs.Spelled.{AreInRange};
ghost use Rattle.plain_volume.specs.Replies.{done_reply};
ghost use Rattle.script_items.specs.Script.{item_of, with_payload, Bare, Paid};
ghost use Rattle.answer_text.specs.Answers.{Answer, said};
ghost use Rattle.ddpsh.specs.Answers.{makes_none, may_stop};
ghost use Rattle.answer_text.specs.Saying.{IsSaid};
ghost use Rattle.plain_volume.specs.Volume.{Volume as PlainVolume};
ghost use Rattle.volume_core.specs.Volumes.{stopped, IsKept};
ghost use Rattle.ddpsh.specs.Served.{Attempts, IsSteady, asked_as};

use crate::listing::list;
use answer_text::{
    Answered, SessionFault, accepted, accepted_digest, accepted_number, end, read_room, refused,
    refused_call, refused_line, silent,
};
use cmdlet_line::{Line, LineFault};
use plain_volume::Fault;
use plain_volume::laws::own_replies_are_steps;
use script_items::is_spoilt_at;
use std::alloc::Global;
use vdisk::Disk;
use volume_core::Volume;
use volume_core::laws::volumes_wear_at_the_last_epoch;

/// How many calls a line has made, and the kind of its answer, or why it has none.
#[derive(Clone, Copy)]
pub(crate) struct Attempt {
    pub(crate) made: u64,
    pub(crate) ended: Result<Answered, SessionFault>,
}

/// A line that made one call.
fn called(ended: Result<Answered, SessionFault>) -> Attempt
    ensures { result ≡ record { made = 1; ended = ended } }
{
    Attempt { made: 1, ended }
}

/// A line that made no call.
fn uncalled(ended: Result<Answered, SessionFault>) -> Attempt
    ensures { result ≡ record { made = 0; ended = ended } }
{
    Attempt { made: 0, ended }
}

/// The answer to a call that has nothing to tell but its refusal.
fn done(text: &mut Vec<u8>, given: Result<(), Fault>) -> Result<Answered, SessionFault>
    ensures said { IfOk result (λ a.
        (answer : Answer) × (said (done_reply given) ≡ Some answer) × IsSaid a text.new.items answer) }
    ensures device { IsErrOf result SessionFault.Device → IsErrOf given Fault.Failed }
    ensures failed { IsErrOf given Fault.Failed → IsErrOf result SessionFault.Device }
    ensures no_sink { IsErrOf result SessionFault.Sink → ⊥ }
{
    match given {
        Ok(()) => accepted(text),
        Err(fault) => refused_call(text, fault),
    }
}

fn create<D: Disk>(volume: &mut Volume<D>, name: &[u8], text: &mut Vec<u8>) -> Attempt
    requires { stopped volume.old ≡ false }
    ensures told { (w : PlainVolume) → IsKept volume.old w →
        Attempts (Bare (Create name.now)) volume.old volume.new result text.new.items }
    ensures steady { IsSteady volume.old volume.new result }
{
    own_replies_are_steps();
    let given = volume.create(name);
    called(done(text, given))
}

fn write<D: Disk>(
    volume: &mut Volume<D>,
    name: &[u8],
    at: u64,
    count: u64,
    payload: &[u8],
    text: &mut Vec<u8>,
) -> Attempt
    requires { stopped volume.old ≡ false }
    ensures told { (w : PlainVolume) → IsKept volume.old w →
        Attempts (Paid (Write name.now at count) payload.now) volume.old volume.new result text.new.items }
    ensures steady { IsSteady volume.old volume.new result }
{
    own_replies_are_steps();
    let given = volume.write(name, at, payload);
    called(done(text, given))
}

/// A `write` line with what stands behind it, up to the byte in the newline's place.
fn write_line<D: Disk>(
    volume: &mut Volume<D>,
    name: &[u8],
    at: u64,
    count: u64,
    behind: &[u8],
    text: &mut Vec<u8>,
) -> Attempt
    requires { stopped volume.old ≡ false }
    ensures told { (w : PlainVolume) → IsKept volume.old w →
        Attempts (with_payload (Write name.now at count) behind.now (Some count)) volume.old volume.new result
        text.new.items }
    ensures idle { makes_none (with_payload (Write name.now at count) behind.now (Some count)) ≡ true →
        Attempts (with_payload (Write name.now at count) behind.now (Some count)) volume.old volume.new result
        text.new.items }
    ensures stays { may_stop (with_payload (Write name.now at count) behind.now (Some count)) ≡ false →
        stopped volume.new ≡ false }
    ensures steady { IsSteady volume.old volume.new result }
{
    if (behind.len() as u64) < count {
        return uncalled(refused(text, b" Cut", b""));
    }
    if is_spoilt_at(behind, count) {
        return uncalled(refused(text, b" PayloadEnd", b""));
    }
    write(volume, name, at, count, &behind[..count as usize], text)
}

/// The bytes are read straight into their place in the answer.
fn read<D: Disk>(
    volume: &mut Volume<D>,
    alloc: Global,
    name: &[u8],
    at: u64,
    count: u64,
    text: &mut Vec<u8>,
) -> Attempt
    requires { stopped volume.old ≡ false }
    ensures told { (w : PlainVolume) → IsKept volume.old w →
        Attempts (Bare (Read name.now at count)) volume.old volume.new result text.new.items }
    ensures runs { stopped volume.new ≡ false }
    ensures steady { IsSteady volume.old volume.new result }
{
    own_replies_are_steps();
    let place = match read_room(text, alloc, count) {
        Ok(place) => place,
        Err(fault) => return uncalled(Err(fault)),
    };
    match volume.read_into(name, at, &mut text[place..]) {
        Ok(()) => called(end(text, Answered::Ok)),
        Err(fault) => called(refused_call(text, fault)),
    }
}

fn flush<D: Disk>(volume: &mut Volume<D>, text: &mut Vec<u8>) -> Attempt
    requires { stopped volume.old ≡ false }
    ensures told { (w : PlainVolume) → IsKept volume.old w →
        Attempts (Bare Flush) volume.old volume.new result text.new.items }
    ensures steady { IsSteady volume.old volume.new result }
{
    own_replies_are_steps();
    let given = volume.flush();
    called(done(text, given))
}

/// Makes all durable, so that the volume may be let go. The answer `ok` is made before, so that it does not want for
/// memory afterwards.
fn exit<D: Disk>(volume: &mut Volume<D>, text: &mut Vec<u8>) -> Attempt
    requires { stopped volume.old ≡ false }
    ensures told { (w : PlainVolume) → IsKept volume.old w →
        Attempts (Bare Exit) volume.old volume.new result text.new.items }
    ensures steady { IsSteady volume.old volume.new result }
{
    match accepted(text) {
        Err(fault) => uncalled(Err(fault)),
        Ok(_) => match volume.flush() {
            Ok(()) => uncalled(Ok(Answered::Exit)),
            Err(fault) => uncalled(refused_call(text, fault)),
        },
    }
}

/// So many equal bytes.
fn repeat(text: &mut Vec<u8>, count: u64, byte: u8) -> Result<(), SessionFault>
    ensures bytes { OnOk result (text.new.items ≡ replicate count byte) }
    ensures memory { OnErr result (IsErrOf result SessionFault.Memory) }
{
    text.clear();
    text.resize(count as usize, byte)?;
    Ok(())
}

/// The answer's room holds the bytes until they are written.
fn fill<D: Disk>(
    volume: &mut Volume<D>,
    name: &[u8],
    at: u64,
    count: u64,
    byte: u64,
    text: &mut Vec<u8>,
) -> Attempt
    requires running { stopped volume.old ≡ false }
    requires small { byte < 256 }
    ensures told { (w : PlainVolume) → IsKept volume.old w →
        Attempts (Bare (Fill name.now at count byte)) volume.old volume.new result text.new.items }
    ensures steady { IsSteady volume.old volume.new result }
{
    own_replies_are_steps();
    match repeat(text, count, byte as u8) {
        Ok(()) => {
            let given = volume.write(name, at, text);
            called(done(text, given))
        }
        Err(fault) => uncalled(Err(fault)),
    }
}

fn set_length<D: Disk>(
    volume: &mut Volume<D>,
    name: &[u8],
    length: u64,
    text: &mut Vec<u8>,
) -> Attempt
    requires { stopped volume.old ≡ false }
    ensures told { (w : PlainVolume) → IsKept volume.old w →
        Attempts (Bare (Length name.now length)) volume.old volume.new result text.new.items }
    ensures steady { IsSteady volume.old volume.new result }
{
    own_replies_are_steps();
    let given = volume.set_length(name, length);
    called(done(text, given))
}

fn rename<D: Disk>(volume: &mut Volume<D>, from: &[u8], to: &[u8], text: &mut Vec<u8>) -> Attempt
    requires { stopped volume.old ≡ false }
    ensures told { (w : PlainVolume) → IsKept volume.old w →
        Attempts (Bare (Rename from.now to.now)) volume.old volume.new result text.new.items }
    ensures steady { IsSteady volume.old volume.new result }
{
    own_replies_are_steps();
    let given = volume.rename(from, to);
    called(done(text, given))
}

fn delete<D: Disk>(volume: &mut Volume<D>, name: &[u8], text: &mut Vec<u8>) -> Attempt
    requires { stopped volume.old ≡ false }
    ensures told { (w : PlainVolume) → IsKept volume.old w →
        Attempts (Bare (Delete name.now)) volume.old volume.new result text.new.items }
    ensures steady { IsSteady volume.old volume.new result }
{
    own_replies_are_steps();
    let given = volume.delete(name);
    called(done(text, given))
}

fn digest<D: Disk>(volume: &mut Volume<D>, name: &[u8], text: &mut Vec<u8>) -> Attempt
    requires { stopped volume.old ≡ false }
    ensures told { (w : PlainVolume) → IsKept volume.old w →
        Attempts (Bare (Digest name.now)) volume.old volume.new result text.new.items }
    ensures runs { stopped volume.new ≡ false }
    ensures steady { IsSteady volume.old volume.new result }
{
    own_replies_are_steps();
    match volume.digest(name) {
        Ok(digest) => called(accepted_digest(text, &digest)),
        Err(fault) => called(refused_call(text, fault)),
    }
}

fn stat<D: Disk>(volume: &Volume<D>, name: &[u8], text: &mut Vec<u8>) -> Attempt
    requires { stopped volume.now ≡ false }
    ensures told { Attempts (Bare (Stat name.now)) volume.now volume.now result text.new.items }
    ensures steady { IsSteady volume.now volume.now result }
{
    own_replies_are_steps();
    volumes_wear_at_the_last_epoch(volume);
    match volume.stat(name) {
        Ok(size) => called(accepted_number(text, size)),
        Err(fault) => called(refused_call(text, fault)),
    }
}

fn answer_line<D: Disk>(
    volume: &mut Volume<D>,
    alloc: Global,
    line: Line,
    behind: &[u8],
    text: &mut Vec<u8>,
) -> Attempt
    requires running { stopped volume.old ≡ false }
    requires fits { AreInRange (ask_of line) }
    ensures told { (w : PlainVolume) → IsKept volume.old w →
        Attempts (item_of (Ok (ask_of line.entry)) behind.now) volume.old volume.new result text.new.items }
    ensures idle { makes_none (item_of (Ok (ask_of line.entry)) behind.now) ≡ true →
        Attempts (item_of (Ok (ask_of line.entry)) behind.now) volume.old volume.new result text.new.items }
    ensures stays { may_stop (item_of (Ok (ask_of line.entry)) behind.now) ≡ false → stopped volume.new ≡ false }
    ensures steady { IsSteady volume.old volume.new result }
{
    match line {
        Line::Silent => uncalled(Ok(silent(text))),
        Line::Create(name) => create(volume, name, text),
        Line::Write(name, at, count) => write_line(volume, name, at, count, behind, text),
        Line::Read(name, at, count) => read(volume, alloc, name, at, count, text),
        Line::Flush => flush(volume, text),
        Line::Exit => exit(volume, text),
        Line::Fill(name, at, count, byte) => fill(volume, name, at, count, byte, text),
        Line::Length(name, length) => set_length(volume, name, length, text),
        Line::Rename(from, to) => rename(volume, from, to, text),
        Line::Delete(name) => delete(volume, name, text),
        Line::Digest(name) => digest(volume, name, text),
        Line::Stat(name) => stat(volume, name, text),
        Line::List => list(volume, alloc, text),
    }
}

/// Serves what a line asks, with what stands behind it up to the byte in its newline's place, and makes the text of its
/// answer.
pub(crate) fn answer<D: Disk>(
    volume: &mut Volume<D>,
    alloc: Global,
    asked: Result<Line, LineFault>,
    behind: &[u8],
    text: &mut Vec<u8>,
) -> Attempt
    requires running { stopped volume.old ≡ false }
    requires fits { IfOk (asked_as asked) AreInRange }
    ensures told { (w : PlainVolume) → IsKept volume.old w →
        Attempts (item_of (asked_as asked.entry) behind.now) volume.old volume.new result text.new.items }
    ensures idle { makes_none (item_of (asked_as asked.entry) behind.now) ≡ true →
        Attempts (item_of (asked_as asked.entry) behind.now) volume.old volume.new result text.new.items }
    ensures stays { may_stop (item_of (asked_as asked.entry) behind.now) ≡ false → stopped volume.new ≡ false }
    ensures steady { IsSteady volume.old volume.new result }
{
    match asked {
        Err(fault) => uncalled(refused_line(text, fault)),
        Ok(line) => answer_line(volume, alloc, line, behind, text),
    }
}
