// What a command's words ask, by the table of commands. Each group of the table ends in the next.
ghost use Rattle.std.specs.Prelude.{◌≡◌, ◌∷◌, [], ℕ, List};
ghost use Rattle.cmdlet_line.specs.Words.{words_of};
ghost use Rattle.cmdlet_line.specs.Lines.{Gives, Kind, Makes, Number, Parameter, Row, Text, all_read, ask_of, asked, at_parameter, byte_parameter, command_of, commands, count_parameter, Create, Delete, Digest, Exit, field, Fill, fill_parameters, Flush, from_parameter, in_order, job_cmdlets, later_cmdlet, Length, length_parameter, Listing, name_parameter, range_parameters, Read, Rename, Stat, to_parameter, volume_cmdlets, volume_commands, Write};

use crate::limits::MOST_COUNT;
use crate::lines::{Line, LineFault};
use crate::spelling::{first_word, is_cmdlet, is_word, number};

/// What a command's word and the bytes behind it ask.
#[tactic(auto, unfolding(crate::specs::Lines::commands))]
pub(crate) fn command<'a>(word: &'a [u8], rest: &'a [u8]) -> Result<Line<'a>, LineFault<'a>>
    ensures { Gives ask_of result (command_of commands word.now (words_of rest.now)) }
{
    if is_word(word, "create") {
        create(rest)
    } else if is_word(word, "write") {
        write(rest)
    } else if is_word(word, "read") {
        read(rest)
    } else if is_word(word, "fill") {
        fill(rest)
    } else if is_word(word, "length") {
        length(rest)
    } else if is_word(word, "rename") {
        rename(rest)
    } else if is_word(word, "delete") {
        delete(rest)
    } else if is_word(word, "digest") {
        digest(rest)
    } else {
        volume_command(word, rest)
    }
}

/// The commands of a whole volume, and the cmdlets.
#[tactic(auto, unfolding(crate::specs::Lines::volume_commands))]
fn volume_command<'a>(word: &'a [u8], rest: &'a [u8]) -> Result<Line<'a>, LineFault<'a>>
    ensures { Gives ask_of result (command_of volume_commands word.now (words_of rest.now)) }
{
    if is_word(word, "stat") {
        stat(rest)
    } else if is_word(word, "list") {
        alone(rest, Line::List)
    } else if is_word(word, "flush") {
        alone(rest, Line::Flush)
    } else if is_word(word, "exit") {
        alone(rest, Line::Exit)
    } else if is_word(word, "turn") || is_word(word, "load") {
        Err(LineFault::NotBuilt(word))
    } else {
        volume_cmdlet(word, rest)
    }
}

/// The cmdlets of a volume and its files, and those of jobs.
#[tactic(auto, unfolding(crate::specs::Lines::volume_cmdlets))]
fn volume_cmdlet<'a>(word: &'a [u8], rest: &'a [u8]) -> Result<Line<'a>, LineFault<'a>>
    ensures { Gives ask_of result (command_of volume_cmdlets word.now (words_of rest.now)) }
{
    if is_cmdlet(word, "Enable-DedupVolume")
        || is_cmdlet(word, "Disable-DedupVolume")
        || is_cmdlet(word, "Set-DedupVolume")
        || is_cmdlet(word, "Get-DedupVolume")
        || is_cmdlet(word, "Get-DedupStatus")
        || is_cmdlet(word, "Update-DedupStatus")
        || is_cmdlet(word, "Get-DedupMetadata")
        || is_cmdlet(word, "Expand-DedupFile")
    {
        Err(LineFault::NotBuilt(word))
    } else {
        job_cmdlet(word, rest)
    }
}

/// The cmdlets of jobs, their schedules, and measures.
#[tactic(auto, unfolding(crate::specs::Lines::job_cmdlets))]
fn job_cmdlet<'a>(word: &'a [u8], rest: &'a [u8]) -> Result<Line<'a>, LineFault<'a>>
    ensures { Gives ask_of result (command_of job_cmdlets word.now (words_of rest.now)) }
{
    if is_cmdlet(word, "Start-DedupJob")
        || is_cmdlet(word, "Stop-DedupJob")
        || is_cmdlet(word, "Get-DedupJob")
        || is_cmdlet(word, "New-DedupSchedule")
        || is_cmdlet(word, "Set-DedupSchedule")
        || is_cmdlet(word, "Get-DedupSchedule")
        || is_cmdlet(word, "Remove-DedupSchedule")
        || is_cmdlet(word, "Measure-DedupFileMetadata")
    {
        Err(LineFault::NotBuilt(word))
    } else {
        Err(LineFault::UnknownCommand(word))
    }
}

fn create(rest: &[u8]) -> Result<Line<'_>, LineFault<'_>>
    ensures { Gives ask_of result (in_order (name_parameter ∷ []) Create (words_of rest.now)) }
{
    match name(rest) {
        Ok(name) => Ok(Line::Create(name)),
        Err(fault) => Err(fault),
    }
}

fn write(rest: &[u8]) -> Result<Line<'_>, LineFault<'_>>
    ensures { Gives ask_of result (in_order range_parameters Write (words_of rest.now)) }
{
    match range(rest) {
        Ok((name, at, count)) => Ok(Line::Write(name, at, count)),
        Err(fault) => Err(fault),
    }
}

fn read(rest: &[u8]) -> Result<Line<'_>, LineFault<'_>>
    ensures { Gives ask_of result (in_order range_parameters Read (words_of rest.now)) }
{
    match range(rest) {
        Ok((name, at, count)) => Ok(Line::Read(name, at, count)),
        Err(fault) => Err(fault),
    }
}

fn fill(rest: &[u8]) -> Result<Line<'_>, LineFault<'_>>
    ensures { Gives ask_of result (in_order fill_parameters Fill (words_of rest.now)) }
{
    let (name, rest) = text(rest, "Name")?;
    let (at, words) = place(rest)?;
    fill_from(name, at, words)
}

/// What `fill` asks by the words behind a name and a place.
fn fill_from<'a>(name: &'a [u8], at: u64, rest: &'a [u8]) -> Result<Line<'a>, LineFault<'a>>
    ensures { Gives ask_of result
        (in_order (count_parameter ∷ byte_parameter ∷ []) (Fill name.now at) (words_of rest.now)) }
{
    let (count, words) = count(rest)?;
    let (byte, words) = number_in(words, "Byte", 0, 255)?;
    no_more(words)?;
    Ok(Line::Fill(name, at, count, byte))
}

fn length(rest: &[u8]) -> Result<Line<'_>, LineFault<'_>>
    ensures { Gives ask_of result (in_order (name_parameter ∷ length_parameter ∷ []) Length (words_of rest.now)) }
{
    let (name, rest) = text(rest, "Name")?;
    let (length, rest) = number_in(rest, "Length", 0, u64::MAX)?;
    no_more(rest)?;
    Ok(Line::Length(name, length))
}

fn rename(rest: &[u8]) -> Result<Line<'_>, LineFault<'_>>
    ensures { Gives ask_of result (in_order (from_parameter ∷ to_parameter ∷ []) Rename (words_of rest.now)) }
{
    let (source, rest) = text(rest, "From")?;
    let (target, rest) = text(rest, "To")?;
    no_more(rest)?;
    Ok(Line::Rename(source, target))
}

fn delete(rest: &[u8]) -> Result<Line<'_>, LineFault<'_>>
    ensures { Gives ask_of result (in_order (name_parameter ∷ []) Delete (words_of rest.now)) }
{
    match name(rest) {
        Ok(name) => Ok(Line::Delete(name)),
        Err(fault) => Err(fault),
    }
}

fn digest(rest: &[u8]) -> Result<Line<'_>, LineFault<'_>>
    ensures { Gives ask_of result (in_order (name_parameter ∷ []) Digest (words_of rest.now)) }
{
    match name(rest) {
        Ok(name) => Ok(Line::Digest(name)),
        Err(fault) => Err(fault),
    }
}

fn stat(rest: &[u8]) -> Result<Line<'_>, LineFault<'_>>
    ensures { Gives ask_of result (in_order (name_parameter ∷ []) Stat (words_of rest.now)) }
{
    match name(rest) {
        Ok(name) => Ok(Line::Stat(name)),
        Err(fault) => Err(fault),
    }
}

/// What a command without parameters asks.
fn alone<'a>(rest: &'a [u8], line: Line<'a>) -> Result<Line<'a>, LineFault<'a>>
    ensures { Gives ask_of result (in_order [] (ask_of line.entry) (words_of rest.now)) }
{
    no_more(rest)?;
    Ok(line)
}

/// A name, with no word behind it.
fn name(rest: &[u8]) -> Result<&[u8], LineFault<'_>>
    ensures { (makes : Makes (name_parameter ∷ []))
        → Gives (λ x. makes x.now) result (in_order (name_parameter ∷ []) makes (words_of rest.now)) }
{
    let (name, rest) = text(rest, "Name")?;
    no_more(rest)?;
    Ok(name)
}

/// A name, a place and a count, with no word behind them.
fn range(rest: &[u8]) -> Result<(&[u8], u64, u64), LineFault<'_>>
    ensures { (makes : Makes range_parameters)
        → Gives (λ x. makes x.0.now x.1 x.2) result (in_order range_parameters makes (words_of rest.now)) }
{
    let (name, rest) = text(rest, "Name")?;
    let (at, rest) = place(rest)?;
    let (count, rest) = count(rest)?;
    no_more(rest)?;
    Ok((name, at, count))
}

/// The next word as a place in a file, and the bytes behind it.
fn place(rest: &[u8]) -> Result<(u64, &[u8]), LineFault<'_>>
    ensures { Gives (λ x. (x.0, words_of x.1.now)) result (field at_parameter (words_of rest.now)) }
{
    number_in(rest, "At", 0, u64::MAX)
}

/// The next word as a count of bytes, and the bytes behind it.
fn count(rest: &[u8]) -> Result<(u64, &[u8]), LineFault<'_>>
    ensures { Gives (λ x. (x.0, words_of x.1.now)) result (field count_parameter (words_of rest.now)) }
{
    number_in(rest, "Count", 0, MOST_COUNT)
}

/// The next word as it stands, and the bytes behind it.
fn text<'a>(rest: &'a [u8], title: &'static str) -> Result<(&'a [u8], &'a [u8]), LineFault<'a>>
    ensures { Gives (λ x. (x.0.now, words_of x.1.now)) result
        (field (record { title = title.now; kind = Text }) (words_of rest.now)) }
{
    first_word(rest).ok_or(LineFault::MissingValue(title))
}

/// The next word as a number, and the bytes behind it.
fn number_in<'a>(
    rest: &'a [u8],
    title: &'static str,
    least: u64,
    most: u64,
) -> Result<(u64, &'a [u8]), LineFault<'a>>
    ensures { Gives (λ x. (x.0, words_of x.1.now)) result
        (field (record { title = title.now; kind = Number least most }) (words_of rest.now)) }
{
    let (word, rest) = text(rest, title)?;
    match number(word, least, most) {
        Some(value) => Ok((value, rest)),
        None => Err(LineFault::BadValue(title)),
    }
}

/// No word is left.
fn no_more(rest: &[u8]) -> Result<(), LineFault<'_>>
    ensures { Gives (λ x. x) result (all_read tt (words_of rest.now)) }
{
    match first_word(rest) {
        Some((word, _)) => Err(LineFault::UnknownParameter(word)),
        None => Ok(()),
    }
}
