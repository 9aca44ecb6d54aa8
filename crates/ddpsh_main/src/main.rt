//! The program `ddpsh`: takes the standard streams, makes the real disk, source, sink and clock, and runs.
#![tactic(auto)]

ghost use Rattle.std.specs.Prelude.{ℕ, IfSome, IfNone};
ghost use Rattle.ddpsh.specs.Commands.{Asks};
ghost use Rattle.ddpsh.specs.declared.commands.Command.TheVariants.{Format};

use cmdlet_line::Words;
use ddpsh::{CLUSTER_BYTES, Command, command_of, run};
use std::alloc::Global;
use std::env::{self, Env};
use std::io::{ErrorKind, writer};
use std::process::ExitCode;
use vdisk::{Cause, Disk, FileDisk, ReaderSource, StandardStreams, SystemClock, WriterSink};

/// Behind the cause that there is no such file: the first word is a path, whatever it looks like.
const USAGE: &str = "; usage: ddpsh IMAGE [--format CLUSTERS] < SCRIPT, where IMAGE is a path";

fn main(rt: HostRuntime) -> ExitCode {
    // Taken first and kept to the end: no file that is opened later gets the number of a stream that is closed.
    let _streams = match StandardStreams::hold(&rt) {
        Ok(streams) => streams,
        Err(cause) => return end_without_streams(&rt, cause),
    };
    let Some(words) = words_of(&rt) else {
        return ExitCode::from(4);
    };
    let image = words.at(0).unwrap_or("");
    let clusters = fresh_clusters(&words);
    let mut disk = FileDisk::open(&rt, image, clusters.is_some());
    if is_replaced(clusters, disk.size()) {
        let _ = eprintln!(rt; "ddpsh: {image}: not empty; --format replaces what it holds");
    }
    let mut script = ReaderSource::new(Some(rt.reader()));
    let mut out = WriterSink::new(writer(&rt));
    let mut clock = SystemClock::new(&rt);
    let alloc = rt.alloc();
    let outcome = run(alloc, &words, &mut script, &mut out, &mut disk, &mut clock);
    if outcome.status == 3 {
        if let Some(cause) = disk.cause() {
            tell(&rt, image, cause);
        }
    }
    ExitCode::from(outcome.status)
}

/// The words behind the program's name, unless memory is wanting. A word that is no text is none of the command's, and
/// neither are no words.
fn words_of(rt: &(impl Env + Alloc<A = Global>)) -> Option<Words> {
    let mut words = Words::new(rt.alloc());
    let mut texts = match env::args(rt) {
        Ok(texts) => texts,
        Err(error) if error.kind() == ErrorKind::InvalidData => return Some(words),
        Err(_) => return None,
    };
    let _program = texts.next();
    for text in texts {
        words.push(&text).ok()?;
    }
    Some(words)
}

/// The clusters of the fresh volume that the words ask for. The image is made where there is none only if they do.
fn fresh_clusters(words: &Words) -> Option<u32>
    ensures some { IfSome result (λ clusters. Asks words.now (Format clusters)) }
    ensures none { IfNone result ((clusters : ℕ) → Asks words.now (Format clusters) → ⊥) }
{
    match command_of(words) {
        Some(Command::Format(clusters)) => Some(clusters),
        _ => None,
    }
}

/// Is what an image of this size holds replaced by a fresh volume? A longer image is refused.
fn is_replaced(clusters: Option<u32>, size: u64) -> bool {
    match clusters {
        Some(clusters) => 0 < size && size <= u64::from(clusters) * u64::from(CLUSTER_BYTES),
        None => false,
    }
}

/// Ends the run before an image is opened.
fn end_without_streams(rt: &(impl Print + Eprint), cause: Cause) -> ExitCode {
    let _ = rt.println("fault device");
    let _ = eprintln!(rt; "ddpsh: {}: {cause}", StandardStreams::STAND_IN);
    ExitCode::from(3)
}

/// Says on standard error what the system said of the image. Where that cannot be written, nobody asks for it.
fn tell(rt: &impl Eprint, image: &str, cause: Cause) {
    let usage = match cause {
        Cause::NoSuchFile => USAGE,
        _ => "",
    };
    let _ = eprintln!(rt; "ddpsh: {image}: {cause}{usage}");
}
