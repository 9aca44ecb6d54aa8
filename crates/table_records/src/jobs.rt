//! The kinds of jobs and how a job may end, with the numbers that tables hold.

ghost use Rattle.std.specs.Prelude.{◌≡◌};
ghost use Rattle.table_records.specs.Keys.{kind_number, kind_of};
ghost use Rattle.table_records.specs.Results.{result_number, result_of};

/// A kind of job.
#[derive(Clone, Copy, Debug, PartialEq, Eq)]
pub enum JobKind {
    Optimization,
    GarbageCollection,
    Scrubbing,
    Unoptimization,
}

impl JobKind {
    /// The number of a kind in the tables.
    pub fn number(self) -> u8
        ensures { result ≡ kind_number self }
    {
        match self {
            JobKind::Optimization => 1,
            JobKind::GarbageCollection => 2,
            JobKind::Scrubbing => 3,
            JobKind::Unoptimization => 4,
        }
    }

    /// The kind of this number, if it is the number of one.
    pub fn of_number(number: u8) -> Option<JobKind>
        ensures { result ≡ kind_of number }
    {
        match number {
            1 => Some(JobKind::Optimization),
            2 => Some(JobKind::GarbageCollection),
            3 => Some(JobKind::Scrubbing),
            4 => Some(JobKind::Unoptimization),
            _ => None,
        }
    }
}

/// How the last job of a kind ended.
#[derive(Clone, Copy, Debug, PartialEq, Eq)]
pub enum JobResult {
    /// No job of the kind has ended.
    Never,
    Completed,
    Cancelled,
    /// Clusters were wanting.
    Full,
    /// Room for records was wanting.
    TableFull,
    /// The ids ran out.
    Worn,
    /// The map of a file has no sound copy.
    MapLost,
}

impl JobResult {
    /// The number of a result in the tables.
    pub fn number(self) -> u8
        ensures { result ≡ result_number self }
    {
        match self {
            JobResult::Never => 0,
            JobResult::Completed => 1,
            JobResult::Cancelled => 2,
            JobResult::Full => 3,
            JobResult::TableFull => 4,
            JobResult::Worn => 5,
            JobResult::MapLost => 6,
        }
    }

    /// The result of this number, if it is the number of one.
    pub fn of_number(number: u8) -> Option<JobResult>
        ensures { result ≡ result_of number }
    {
        match number {
            0 => Some(JobResult::Never),
            1 => Some(JobResult::Completed),
            2 => Some(JobResult::Cancelled),
            3 => Some(JobResult::Full),
            4 => Some(JobResult::TableFull),
            5 => Some(JobResult::Worn),
            6 => Some(JobResult::MapLost),
            _ => None,
        }
    }
}
