//! What the lines of a log tell so far.

use apd_answers::Asked;
use apd_causes::Query;
use apd_findings::Parted;
use apd_record::Record;

/// What the lines so far tell.
#[derive(Drop)]
pub struct LogState {
    /// The query whose run hasn't ended yet.
    pub query: Option<Query>,
    /// The record of the last run that ended.
    pub history: Record,
    /// The replies, each with its question: those that were known beforehand, the symptoms, and those of the log; and the
    /// predicates that are trusted.
    pub known: Parted,
    /// The question that waits for its reply, and of how many suspects it is about one.
    pub waiting: Option<Asked>,
}
