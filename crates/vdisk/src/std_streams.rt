// A source, a sink and a clock over std.
ghost use Rattle.std.specs.Prelude.{◌≡◌, ◌<◌, ◌≤◌, ◌^◌, ◌↔◌, None, IfOk, IsErr, IsNone, length};

use crate::disk::Failed;
use crate::streams::{Clock, Sink, Source};
use std::io::{Read, Write};
use std::rt;
use std::time::{SystemTime, UNIX_EPOCH};

/// A source over a reader of std. It tells nothing of what it has left, and counts what it gave.
#[derive(Drop)]
pub struct ReaderSource<T: Read + Drop> {
    reader: Option<T>,
    given: u64,
    faults: u64,
    ghost counter: { faults < 2 ^ 64 },
}

impl<T: Read + Drop> ReaderSource<T> {
    /// With no reader, every read fails. It has given nothing, and has not failed yet.
    pub fn new(reader: Option<T>) -> Self
        ensures reader { result.reader ≡ reader }
        ensures given { result.given ≡ 0 }
        ensures faults { result.faults ≡ 0 }
    {
        ReaderSource {
            reader,
            given: 0,
            faults: 0,
        }
    }
}

impl<T: Read + Drop> Source for ReaderSource<T> {
    ghost use Rattle.vdisk.specs.Causes.{HasCause};
    ghost use Rattle.vdisk.specs.Streams.{Takes, CountsOn};

    ghost left = { λ s. None };

    ghost given = { λ s. s.given };

    ghost faults = { λ s. s.faults };

    ghost counted = { λ s. s.counter };

    fn read(&mut self, out: &mut [u8]) -> Result<usize, Failed>
        ensures bound { IfOk result (λ n. n ≤ length out.new) }
        ensures bytes { Takes None None result out.new }
        ensures given { CountsOn self.old.given self.new.given result }
        ensures cause { HasCause self.old.faults self.new.faults result }
        ensures none { IsNone self.old.reader → IsErr result }
        ensures stays { IsNone self.new.reader ↔ IsNone self.old.reader }
    {
        if let Some(reader) = &mut self.reader {
            if let Ok(count) = reader.read(out) {
                self.given = self.given.saturating_add(count as u64);
                return Ok(count);
            }
        }
        self.faults = self.faults.saturating_add(1);
        Err(Failed)
    }
}

/// A sink over a writer of std. It tells nothing of what it holds. Each piece is flushed, so none waits in a buffer
/// of the writer's.
#[derive(Drop)]
pub struct WriterSink<T: Write + Drop> {
    writer: T,
    faults: u64,
    ghost counter: { faults < 2 ^ 64 },
}

impl<T: Write + Drop> WriterSink<T> {
    /// It has not failed yet.
    pub fn new(writer: T) -> Self
        ensures writer { result.writer ≡ writer }
        ensures faults { result.faults ≡ 0 }
    {
        WriterSink { writer, faults: 0 }
    }
}

impl<T: Write + Drop> Sink for WriterSink<T> {
    ghost held = { λ s. None };

    ghost faults = { λ s. s.faults };

    ghost counted = { λ s. s.counter };

    /// A writer that takes nothing of a non-empty piece has failed.
    fn write(&mut self, bytes: &[u8]) -> Result<usize, Failed> {
        if let Ok(count) = self.writer.write(bytes) {
            if (count > 0 || bytes.is_empty()) && self.writer.flush().is_ok() {
                return Ok(count);
            }
        }
        self.faults = self.faults.saturating_add(1);
        Err(Failed)
    }
}

/// The system's clock. It does not tell its answers. A clock that is set before 1970 fails.
#[derive(Drop)]
pub struct SystemClock<R: rt::Clock + Drop> {
    rt: R,
    faults: u64,
    ghost counter: { faults < 2 ^ 64 },
}

impl<R: rt::Clock + Drop> SystemClock<R> {
    /// It has not failed yet.
    pub fn new(rt: R) -> Self
        ensures rt { result.rt ≡ rt }
        ensures faults { result.faults ≡ 0 }
    {
        SystemClock { rt, faults: 0 }
    }
}

impl<R: rt::Clock + Drop> Clock for SystemClock<R> {
    ghost answers = { λ c. None };

    ghost faults = { λ c. c.faults };

    ghost counted = { λ c. c.counter };

    fn now(&mut self) -> Result<u64, Failed> {
        if let Ok(time) = SystemTime::now(&self.rt) {
            if let Ok(since) = time.duration_since(UNIX_EPOCH) {
                return Ok(since.as_secs());
            }
        }
        self.faults = self.faults.saturating_add(1);
        Err(Failed)
    }
}
