// Rows that are stopped at each call of the disk, and what a crash then leaves.
use crate::journals::take;
use crate::memory::crash;
use crate::session::Session;
use row_files::{Answers, Asked, RowFault, Step, Steps, Tally};
use std::alloc::Global;
use vdisk::MemoryDisk;

/// A run that ended, or was stopped.
#[derive(Drop)]
struct Stopped {
    disk: MemoryDisk,
    /// How many states it told.
    states: usize,
    was_stopped: bool,
}

/// Makes the steps, where each call of the disk from this one on fails, until one is refused for it.
fn run(alloc: Global, steps: &[Step], stop: u64) -> Result<Stopped, RowFault> {
    let mut session = Session::new(alloc, Vec::new(alloc), stop);
    let mut states = 0usize;
    for step in steps {
        take(&mut session, &step.text, &mut Answers::new(alloc))?;
        if session.has_failed {
            break;
        }
        states = states.saturating_add(usize::from(step.tells_state));
    }
    Ok(Stopped {
        was_stopped: session.has_failed,
        disk: session.take_disk(),
        states,
    })
}

/// Is this one of the lines?
fn is_line_of(told: &[u8], lines: &[u8]) -> bool {
    for line in lines.split(|byte| *byte == b'\n') {
        if let [text @ .., b'\n'] = told
            && text == line
            && !text.is_empty()
        {
            return true;
        }
    }
    false
}

/// The step that tells the state of this number, from 0 on.
fn state_of<'a>(row: &'a Steps<'_>, number: usize) -> Option<&'a Step> {
    let mut states = 0usize;
    for step in &row.steps {
        if step.tells_state && states == number {
            return Some(step);
        }
        states = states.saturating_add(usize::from(step.tells_state));
    }
    None
}

/// Is this what the state of a number is to tell?
fn is_state(row: &Steps<'_>, number: usize, told: &[u8]) -> bool {
    match state_of(row, number) {
        Some(state) => state.wanted.as_slice() == told,
        None => false,
    }
}

/// May a run that told so many states leave what is told here: its last state or the next one?
fn may_tell(row: &Steps<'_>, count: usize, told: &[u8]) -> bool {
    let is_last = is_state(row, count.saturating_sub(1), told);
    is_last || is_state(row, count, told) || count == 0 && is_line_of(told, &row.before)
}

/// The first pick whose image tells what may not be left, if there is one.
fn first_loss(
    alloc: Global,
    row: &Steps<'_>,
    left: &Stopped,
    picks: u64,
) -> Result<Option<u64>, RowFault> {
    let Some(state) = state_of(row, 0) else {
        return Ok(Some(0));
    };
    for pick in 0..picks {
        let mut session = Session::new(alloc, crash(&left.disk, pick)?, 0);
        let mut answers = Answers::new(alloc);
        take(&mut session, &state.text, &mut answers)?;
        if !may_tell(row, left.states, answers.text()) {
            return Ok(Some(pick));
        }
    }
    Ok(None)
}

/// Does a row survive a stop at each of so many calls, with so many images each? Some of the runs are to be stopped,
/// and some are not.
pub fn survives(alloc: Global, row: &Steps<'_>, tally: &mut Tally) -> Result<bool, RowFault> {
    let mut asked = Asked::new(row.end.text);
    let (stops, picks) = (asked.number()?, asked.number()?);
    let mut stopped = 0u64;
    for stop in 1..stops.saturating_add(1) {
        let left = run(alloc, &row.steps, stop)?;
        stopped = stopped.saturating_add(u64::from(left.was_stopped));
        if let Some(pick) = first_loss(alloc, row, &left, picks)? {
            tally.tell(&format!(in alloc; "stopped at call {stop}, lost by pick {pick}")?)?;
            return Ok(false);
        }
    }
    Ok(0 < stopped && stopped < stops)
}
