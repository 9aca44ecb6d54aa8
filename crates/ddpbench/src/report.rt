// Figures on standard error, the rates that they show, and the time behind them.
use std::io;
use std::rt::Clock;
use std::time::Instant;

/// The ns since a moment.
pub fn nanos_since(rt: &impl Clock, start: Instant) -> io::Result<u64> {
    let time = start.elapsed(rt)?;
    Ok(u64::try_from(time.as_nanos()).unwrap_or(u64::MAX))
}

/// Tells a measured figure, as `figure: NAME VALUE UNIT`.
pub fn figure(rt: &impl Eprint, name: &str, value: u64, unit: &str) -> io::Result<()> {
    eprintln!(rt; "figure: {name} {value} {unit}")
}

/// Tells a figure in MB/s, of 10^6 bytes.
pub fn rate(rt: &impl Eprint, name: &str, bytes: u64, nanos: u64) -> io::Result<()> {
    let micros = nanos / 1000;
    figure(rt, name, bytes / micros.max(1), "MB/s")
}

/// Tells a figure in ns a call, of calls since a moment.
pub fn cost(rt: &(impl Eprint + Clock), name: &str, calls: u32, start: Instant) -> io::Result<()> {
    let nanos = nanos_since(rt, start)?;
    figure(rt, name, nanos / u64::from(calls).max(1), "ns")
}

/// Tells the cost of a call among so many since a moment, as `figure: NAME.COUNT VALUE ns`.
pub fn cost_among(
    rt: &(impl Eprint + Clock),
    name: &str,
    count: u32,
    start: Instant,
) -> io::Result<()> {
    let nanos = nanos_since(rt, start)?;
    let value = nanos / u64::from(count).max(1);
    eprintln!(rt; "figure: {name}.{count} {value} ns")
}

/// Tells a figure in records/s, of records since a moment.
pub fn per_second(
    rt: &(impl Eprint + Clock),
    name: &str,
    records: u32,
    start: Instant,
) -> io::Result<()> {
    let micros = nanos_since(rt, start)? / 1000;
    let millions = u64::from(records) * 1_000_000;
    figure(rt, name, millions / micros.max(1), "records/s")
}

/// Tells a figure for each of so many MiB.
pub fn per_mebibyte(
    rt: &impl Eprint,
    name: &str,
    value: u64,
    mebibytes: u32,
    unit: &str,
) -> io::Result<()> {
    let mebibytes = u64::from(mebibytes);
    figure(rt, name, value / mebibytes.max(1), unit)
}

/// Tells a part of a whole to two decimals, cut off, as `figure: NAME VALUE UNIT`.
pub fn portion(rt: &impl Eprint, name: &str, part: u64, whole: u64, unit: &str) -> io::Result<()> {
    let hundredths = part.saturating_mul(100) / whole.max(1);
    let (ones, rest) = (hundredths / 100, hundredths % 100);
    eprintln!(rt; "figure: {name} {ones}.{rest:02} {unit}")
}
