// Opening the journal that a disk has.
ghost use Rattle.std.specs.Prelude.{◌≡◌, ◌⊎◌, ◌<◌, ◌≤◌, ◌+◌, ◌*◌, ◌^◌, ℕ, List, length, vec_len, vec_capacity, drop, get_or, IsTrue, true, false, Ok, Err, Some, IfOk, IfErr, IfSome, IfNone, OnOk, OnErr, IsErrOf};
ghost use Rattle.vdisk.specs.Causes.{Rose, HasCause};
ghost use Rattle.vdisk.specs.Disk.{DiskState, Only};
ghost use Rattle.vdisk.specs.Ranges.{part};
ghost use Rattle.meta_log.specs.declared.limits.TheConstants.{BEFORE_BODY, CHECKPOINT_HEAD, LEAST_HALF, STAGED_ROOM, STREAM_ROOM};
ghost use Rattle.meta_log.specs.Meta.{is_open, epoch_of, map_of_half, meta_of};
ghost use Rattle.meta_log.specs.Ready.{AreHalves, GoesOn, GoesOnFrom, Stands};
ghost use Rattle.meta_log.specs.Reading.{IsSpellable, records_bytes};
ghost use Rattle.meta_log.specs.Opened.{IsOnlyRead, is_live, IsChoice, IsChosen, chosen_layout, IsOpenFault};

use crate::buffers::buffers;
use crate::fault::MetaFault;
use crate::half::{Found, epoch_in, read_half};
use crate::log::MetaLog;
use crate::records::Unread;
use std::alloc::{AllocError, Global};
use vdisk::{Disk, Failed};

// The gate and the epoch of a half.
#[derive(Clone, Copy)]
struct HalfHeader {
    is_open: bool,
    epoch: u64,
}

// The live half's number and place, the other one's place, and whether that one's gate is open.
#[derive(Clone, Copy)]
struct Choice {
    number: u8,
    live_at: u64,
    other_at: u64,
    other_open: bool,
}

fn read_header<D: Disk>(disk: &mut D, at: u64) -> Result<HalfHeader, Failed>
    requires { at + 9 ≤ length (D.state disk.old).image }
    ensures gate { IsTrue (D.state disk.old).tells →
        IfOk result (λ header. header.is_open ≡ is_open (part at 9 (D.state disk.old).image)) }
    ensures epoch { IsTrue (D.state disk.old).tells →
        IfOk result (λ header. header.epoch ≡ epoch_of (part at 9 (D.state disk.old).image)) }
    ensures read { IsOnlyRead (D.state disk.old) (D.state disk.new) }
    ensures same { D.is_same disk.old disk.new }
    ensures failed { OnErr result (Rose (D.state disk.old).faults (D.state disk.new).faults) }
{
    let mut bytes = [0; 9];
    disk.read(at, &mut bytes)?;
    Ok(HalfHeader {
        is_open: bytes[0] == 1,
        epoch: epoch_in(&bytes),
    })
}

fn read_headers<D: Disk>(
    disk: &mut D,
    at: u64,
    half: u64,
) -> Result<(HalfHeader, HalfHeader), Failed>
    requires range { at + 2 * half ≤ length (D.state disk.old).image }
    requires least { LEAST_HALF ≤ half }
    ensures first_gate { IsTrue (D.state disk.old).tells →
        IfOk result (λ headers. headers.0.is_open ≡ is_open (part at 9 (D.state disk.old).image)) }
    ensures first_epoch { IsTrue (D.state disk.old).tells →
        IfOk result (λ headers. headers.0.epoch ≡ epoch_of (part at 9 (D.state disk.old).image)) }
    ensures second_gate { IsTrue (D.state disk.old).tells →
        IfOk result (λ headers. headers.1.is_open ≡ is_open (part (at + half) 9 (D.state disk.old).image)) }
    ensures second_epoch { IsTrue (D.state disk.old).tells →
        IfOk result (λ headers. headers.1.epoch ≡ epoch_of (part (at + half) 9 (D.state disk.old).image)) }
    ensures read { IsOnlyRead (D.state disk.old) (D.state disk.new) }
    ensures same { D.is_same disk.old disk.new }
    ensures failed { OnErr result (Rose (D.state disk.old).faults (D.state disk.new).faults) }
{
    let first = read_header(disk, at)?;
    let second = read_header(disk, at + half)?;
    Ok((first, second))
}

fn is_live(one: HalfHeader, other: HalfHeader) -> bool
    ensures { result ≡ is_live one other }
{
    one.is_open && (!other.is_open || other.epoch < one.epoch)
}

fn choose(first: HalfHeader, second: HalfHeader, at: u64, half: u64) -> Option<Choice>
    requires { at + half < 2 ^ 64 }
    ensures some { IfSome result (λ choice. IsChoice at half first second choice) }
    ensures none { IfNone result ((is_live first second ≡ false) × (is_live second first ≡ false)) }
{
    if is_live(first, second) {
        return Some(Choice {
            number: 0,
            live_at: at,
            other_at: at + half,
            other_open: second.is_open,
        });
    }
    if is_live(second, first) {
        return Some(Choice {
            number: 1,
            live_at: at + half,
            other_at: at,
            other_open: first.is_open,
        });
    }
    None
}

// The live half, on a disk that is then synced.
fn find_live<D: Disk>(disk: &mut D, at: u64, half: u64) -> Result<Choice, MetaFault>
    requires range { at + 2 * half ≤ length (D.state disk.old).image }
    requires least { LEAST_HALF ≤ half }
    ensures chosen { IsTrue (D.state disk.old).tells →
        IfOk result (λ choice. IsChosen at half (D.state disk.old).image choice) }
    ensures settled { IsTrue (D.state disk.old).tells →
        OnOk result (Only (D.state disk.old).image (D.state disk.new).may_leave) }
    ensures halves { IfOk result (λ choice. AreHalves at half choice.live_at choice.other_at) }
    ensures damaged { IsTrue (D.state disk.old).tells →
        IfErr result (λ e. (h : ℕ) → e ≡ MetaFault.Damaged h → meta_of at half (D.state disk.old).image ≡ Err h) }
    ensures refused { IfErr result (λ e. IsOpenFault e) }
    ensures read { IsOnlyRead (D.state disk.old) (D.state disk.new) }
    ensures same { D.is_same disk.old disk.new }
    ensures failed { IsErrOf result MetaFault.Failed → Rose (D.state disk.old).faults (D.state disk.new).faults }
{
    disk.sync()?;
    let (first, second) = read_headers(disk, at, half)?;
    match choose(first, second, at, half) {
        Some(choice) => Ok(choice),
        None => Err(MetaFault::Damaged(2)),
    }
}

fn zeros(alloc: Global, count: usize) -> Result<Vec<u8>, AllocError>
    ensures { IfOk result (λ bytes. length bytes.items ≡ count) }
{
    let mut bytes = Vec::new(alloc);
    bytes.resize(count, 0)?;
    Ok(bytes)
}

// So many bytes from a place on.
fn read_bytes<D: Disk>(
    alloc: Global,
    disk: &mut D,
    at: u64,
    count: usize,
) -> Result<Vec<u8>, MetaFault>
    requires { at + count ≤ length (D.state disk.old).image }
    ensures size { IfOk result (λ bytes. length bytes.items ≡ count) }
    ensures bytes { IsTrue (D.state disk.old).tells →
        IfOk result (λ bytes. bytes.items ≡ part at count (D.state disk.old).image) }
    ensures refused { IfErr result (λ e. (e ≡ MetaFault.Failed) ⊎ (e ≡ MetaFault.Memory)) }
    ensures read { IsOnlyRead (D.state disk.old) (D.state disk.new) }
    ensures same { D.is_same disk.old disk.new }
    ensures failed { IsErrOf result MetaFault.Failed → Rose (D.state disk.old).faults (D.state disk.new).faults }
{
    let mut bytes = zeros(alloc, count)?;
    disk.read(at, &mut bytes)?;
    Ok(bytes)
}

// What the half at a place spells. It has this number.
fn read_live<D: Disk>(
    alloc: Global,
    disk: &mut D,
    at: u64,
    half: u64,
    number: u8,
) -> Result<Found, MetaFault>
    requires range { at + half ≤ length (D.state disk.old).image }
    requires least { LEAST_HALF ≤ half }
    ensures goes_on { IsTrue (D.state disk.old).tells →
        IfOk result (λ found. GoesOn found.place (part at half (D.state disk.old).image) found.map) }
    ensures epoch { IsTrue (D.state disk.old).tells →
        IfOk result (λ found. found.epoch ≡ epoch_of (part at half (D.state disk.old).image)) }
    ensures fits { IfOk result (λ found. CHECKPOINT_HEAD + records_bytes found.map ≤ found.place) }
    ensures spellable { IfOk result (λ found. IsSpellable found.map) }
    ensures within { IfOk result (λ found. found.place ≤ half) }
    ensures counts { IfOk result (λ found. (1 ≤ found.epoch) × (found.epoch < 2 ^ 63)) }
    ensures damaged { IsTrue (D.state disk.old).tells → IfErr result (λ e. (h : ℕ) → e ≡ MetaFault.Damaged h →
        (h ≡ number) × (map_of_half (part at half (D.state disk.old).image) ≡ None)) }
    ensures refused { IfErr result (λ e. IsOpenFault e) }
    ensures read { IsOnlyRead (D.state disk.old) (D.state disk.new) }
    ensures same { D.is_same disk.old disk.new }
    ensures failed { IsErrOf result MetaFault.Failed → Rose (D.state disk.old).faults (D.state disk.new).faults }
{
    let bytes = read_bytes(alloc, disk, at, half as usize)?;
    match read_half(alloc, &bytes) {
        Ok(found) => Ok(found),
        Err(Unread::Damaged) => Err(MetaFault::Damaged(number)),
        Err(Unread::Memory) => Err(MetaFault::Memory),
    }
}

// What a journal is made of beside its disk.
#[derive(Drop)]
struct Journal {
    choice: Choice,
    found: Found,
    staged: Vec<u8>,
    scratch: Vec<u8>,
}

fn read_journal<D: Disk>(
    alloc: Global,
    disk: &mut D,
    at: u64,
    half: u64,
) -> Result<Journal, MetaFault>
    requires range { at + 2 * half ≤ length (D.state disk.old).image }
    requires least { LEAST_HALF ≤ half }
    ensures stands { IsTrue (D.state disk.old).tells → IfOk result (λ journal.
        Stands (chosen_layout at half journal.choice journal.found.place journal.found.epoch) (D.state disk.new)
        journal.found.map) }
    ensures spells { IsTrue (D.state disk.old).tells →
        IfOk result (λ journal. meta_of at half (D.state disk.old).image ≡ Ok journal.found.map) }
    ensures goes_on { IsTrue (D.state disk.old).tells →
        IfOk result (λ journal. GoesOnFrom at half journal.found.place journal.found.epoch (D.state disk.old).image) }
    ensures halves { IfOk result (λ journal. AreHalves at half journal.choice.live_at journal.choice.other_at) }
    ensures fits { IfOk result (λ journal. CHECKPOINT_HEAD + records_bytes journal.found.map ≤ journal.found.place) }
    ensures spellable { IfOk result (λ journal. IsSpellable journal.found.map) }
    ensures within { IfOk result (λ journal. journal.found.place ≤ half) }
    ensures counts { IfOk result (λ journal. (1 ≤ journal.found.epoch) × (journal.found.epoch < 2 ^ 63)) }
    ensures room { IfOk result (λ journal. STAGED_ROOM ≤ vec_capacity journal.staged) }
    ensures head { IfOk result (λ journal. length journal.staged.items ≡ BEFORE_BODY) }
    ensures stream { IfOk result (λ journal. STREAM_ROOM ≤ vec_capacity journal.scratch) }
    ensures damaged { IsTrue (D.state disk.old).tells →
        IfErr result (λ e. (h : ℕ) → e ≡ MetaFault.Damaged h → meta_of at half (D.state disk.old).image ≡ Err h) }
    ensures refused { IfErr result (λ e. IsOpenFault e) }
    ensures read { IsOnlyRead (D.state disk.old) (D.state disk.new) }
    ensures same { D.is_same disk.old disk.new }
    ensures failed { IsErrOf result MetaFault.Failed → Rose (D.state disk.old).faults (D.state disk.new).faults }
{
    let choice = find_live(disk, at, half)?;
    let found = read_live(alloc, disk, choice.live_at, half, choice.number)?;
    let (staged, scratch) = buffers(alloc)?;
    Ok(Journal {
        choice,
        found,
        staged,
        scratch,
    })
}

impl<D: Disk> MetaLog<D> {
    ghost use Rattle.meta_log.specs.Log.{IsLog, state_of, now_of, staged_of};

    /// Opens the journal whose two halves, of `half` bytes each, stand one behind the other from `at` on. The disk is
    /// synced first. A refusal hands the disk back: `Damaged` with the number of the live half where that is damaged,
    /// whatever the other one holds, and with 2 where none is live; `Failed` where the device failed; `Memory`.
    pub fn open(
        alloc: Global,
        mut disk: D,
        at: u64,
        half: u64,
    ) -> Result<MetaLog<D>, (D, MetaFault)>
        requires least { LEAST_HALF ≤ half }
        requires most { half < 2 ^ 32 }
        requires range { at + 2 * half ≤ length (D.state disk).image }

        // The log stands for what the disk spells, and the live half is never passed over.
        ensures opened { IsTrue (D.state disk).tells → IfOk result (λ log. IsLog log (now_of log)) }
        ensures spells { IsTrue (D.state disk).tells →
            IfOk result (λ log. meta_of at half (D.state disk).image ≡ Ok (now_of log)) }
        ensures epoch { IsTrue (D.state disk).tells →
            IfOk result (λ log. epoch_of (part log.live_at half (D.state disk).image) ≡ log.epoch) }
        // The next group goes where the live half's groups end.
        ensures goes_on { IsTrue (D.state disk).tells →
            IfOk result (λ log. GoesOnFrom at half log.place log.epoch (D.state disk).image) }
        ensures damaged { IsTrue (D.state disk).tells →
            IfErr result (λ e. (h : ℕ) → e.1 ≡ MetaFault.Damaged h → meta_of at half (D.state disk).image ≡ Err h) }
        ensures refused { IfErr result (λ e. IsOpenFault e.1) }
        ensures failed { IfErr result (λ e. e.1 ≡ MetaFault.Failed → Rose (D.state disk).faults (D.state e.0).faults) }

        // The disk is only synced and read.
        ensures read { IfOk result (λ log. IsOnlyRead (D.state disk) (state_of log)) }
        ensures read_err { IfErr result (λ e. IsOnlyRead (D.state disk) (D.state e.0)) }
        ensures same { IfOk result (λ log. D.is_same disk log.disk) }
        ensures same_err { IfErr result (λ e. D.is_same disk e.0) }

        ensures place { IfOk result (λ log. (log.at ≡ at) × (log.half ≡ half)) }
        ensures staged { IfOk result (λ log. staged_of log ≡ 0) }
        ensures runs { IfOk result (λ log. log.stopped ≡ false) }
    {
        let read = read_journal(alloc, &mut disk, at, half);
        match read {
            Ok(journal) => {
                let Journal {
                    choice,
                    found,
                    staged,
                    scratch,
                } = journal;
                let Found { epoch, map, place } = found;
                Ok(MetaLog {
                    disk,
                    at,
                    half,
                    live_at: choice.live_at,
                    other_at: choice.other_at,
                    other_open: choice.other_open,
                    epoch,
                    place: place as u64,
                    map,
                    staged,
                    scratch,
                    stopped: false,
                })
            }
            Err(fault) => Err((disk, fault)),
        }
    }
}
