// Is a run what its row tells?
use crate::plain::Plain;
use crate::rows::{Durable, End, Run};
use crate::running::Ran;
use crate::settings::Setting;
use ddpsh::Outcome;
use row_files::RowFault;

/// Are these the acknowledgements? Their moments are counted from the volume's opening on.
fn has_acks(outcome: &Outcome, acks: &[Durable]) -> bool {
    let opened = outcome.opened.unwrap_or(0);
    for (k, wanted) in acks.iter().enumerate() {
        let Some(ack) = outcome.acks.at(k) else {
            return false;
        };
        if ack.moment.wrapping_sub(opened) != wanted.moment || ack.calls != wanted.calls {
            return false;
        }
    }
    acks.is_empty() || outcome.acks.at(acks.len()).is_none()
}

/// Was a volume opened where the status says so, and let go where it says so?
fn fits_status(outcome: &Outcome) -> bool {
    match outcome.status {
        0 | 1 => outcome.opened.is_some() && outcome.acks.at(0).is_some(),
        2 | 5 => outcome.opened.is_none() && outcome.acks.at(0).is_none(),
        6 | 7 => outcome.opened.is_some(),
        _ => true,
    }
}

/// Did the volume stand open at the moment that the row tells, if it tells one?
fn is_opened_as_told(run: &Run, outcome: &Outcome) -> bool {
    for setting in &run.settings {
        if let Setting::Opened(moment) = setting {
            return outcome.opened == Some(*moment);
        }
    }
    true
}

/// Is this what the row tells of its run? The plain volume has served the runs before it.
pub fn is_as_told(run: &Run, plain: &mut Plain, ran: &Ran) -> Result<bool, RowFault> {
    let (status, lines) = (u64::from(ran.outcome.status), ran.outcome.lines);
    let is_printed = match run.end {
        End::Told(wanted, count) => {
            status == wanted && lines == count && ran.printed.as_slice() == run.output.as_slice()
        }
        End::Plain => {
            plain.serve(&run.script)?;
            status == plain.status
                && lines == plain.lines
                && ran.printed.as_slice() == plain.output.text()
        }
    };
    Ok(
        is_printed
            && fits_status(&ran.outcome)
            && is_opened_as_told(run, &ran.outcome)
            && has_acks(&ran.outcome, &run.acks),
    )
}
