use due_queue::Item;
use hel_lists::Items;
use hel_values::TextValue;
use time_state::{Cause, Grant, Phase};

/// A grant and what it handed over, in order: docs/RULES.md, Hand-over.
#[derive(Debug, Drop)]
pub struct LogEntry {
    pub grant: Grant,
    pub items: Items<Item>,
}

/// How a federate stands at the end of its log.
#[derive(Debug, Drop)]
pub enum LogEnd {
    /// It ended otherwise than by failing.
    Ended(Cause),
    /// It failed, with this text.
    FailedText(TextValue),
    /// It lives.
    Open(Phase),
}

/// What one federate was granted, from its entry on.
#[derive(Debug, Drop)]
pub struct FedLog {
    pub entries: Items<LogEntry>,
    pub end: LogEnd,
}

/// The log of each federate, by its number.
#[derive(Debug, Drop)]
pub struct Logs {
    pub feds: Items<FedLog>,
}
