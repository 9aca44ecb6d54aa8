//! How the last jobs ended.

use table_rules::LastResults;

/// How the last jobs ended.
#[derive(Clone, Copy, Debug, PartialEq, Eq)]
pub(crate) struct JobEnds {
    /// Their records now.
    pub(crate) last: LastResults,
    /// The records in the journal's map, which the next commit makes those now.
    pub(crate) staged: LastResults,
}
