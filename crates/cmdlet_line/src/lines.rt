// Lines, and why they are refused.

/// What a line asks. Names are slices of the line, of any bytes but spaces: whether a name is
/// lawful is for the volume to say.
#[derive(Clone, Copy)]
pub enum Line<'a> {
    /// Nothing: the line is empty, has spaces only, or is a remark.
    Silent,
    /// `create NAME`: make an empty file.
    Create(&'a [u8]),
    /// `write NAME AT COUNT`: write COUNT bytes from byte AT on. They follow the line.
    Write(&'a [u8], u64, u64),
    /// `read NAME AT COUNT`: read COUNT bytes from byte AT on.
    Read(&'a [u8], u64, u64),
    /// `fill NAME AT COUNT BYTE`: write COUNT bytes from byte AT on, each of them BYTE.
    Fill(&'a [u8], u64, u64, u64),
    /// `length NAME N`: give the file N bytes, cut off or with zeros behind.
    Length(&'a [u8], u64),
    /// `rename FROM TO`: the file FROM is called TO.
    Rename(&'a [u8], &'a [u8]),
    /// `delete NAME`: remove the file.
    Delete(&'a [u8]),
    /// `digest NAME`: tell the SHA-256 of the file's bytes.
    Digest(&'a [u8]),
    /// `stat NAME`: tell the file's length.
    Stat(&'a [u8]),
    /// `list`: tell the length and the name of each file.
    List,
    /// `flush`: what was done so far is durable when the answer comes.
    Flush,
    /// `exit`: close the volume and end the run.
    Exit,
}

/// Why a line is refused. A slice is the word at fault, a text the name of its parameter.
#[derive(Clone, Copy)]
pub enum LineFault<'a> {
    /// The line has more than `MOST_LINE` bytes.
    LineTooLong,
    /// A double quote stands where none may.
    BadQuote,
    /// The first word is no command.
    UnknownCommand(&'a [u8]),
    /// The command is known, and this version does not have it yet.
    NotBuilt(&'a [u8]),
    /// A word stands where the command takes none.
    UnknownParameter(&'a [u8]),
    /// The parameter is known, and is not supported.
    LeftOut(&'static str),
    /// The parameter stands twice.
    RepeatedParameter(&'static str),
    /// The line ends before the parameter's value.
    MissingValue(&'static str),
    /// The word is no value of the parameter.
    BadValue(&'static str),
    /// The line lacks a parameter that the command needs.
    MissingParameter(&'static str),
}
