// Runs of calls that were worked out by hand, each the contract of an empty function.
ghost use Rattle.plain_volume.specs.Rows.{HelloIsReadBack, AnEmptyFileReadsNothing, AGapReadsAsZeros, RenamedAndGrown};

/// Five bytes are written and read back, their digest is answered, and a read of six is outside.
pub fn hello_is_read_back()
    ensures { HelloIsReadBack }
{}

/// Of an empty file no bytes can be read at its beginning, and nothing behind it.
pub fn an_empty_file_reads_nothing()
    ensures { AnEmptyFileReadsNothing }
{}

/// A write behind the end leaves zeros before it.
pub fn a_gap_reads_as_zeros()
    ensures { AGapReadsAsZeros }
{}

/// A renamed file keeps its bytes, and grows by zeros.
pub fn renamed_and_grown()
    ensures { RenamedAndGrown }
{}
