//! How the driving of a connection ends.

/// Why a connection is driven no further. Definition: own.
#[derive(Clone, Copy, Debug, PartialEq, Eq)]
pub enum End {
    /// All was done that was to be done, and nothing came any more.
    Done,
    /// There was something left to send, and the link took nothing for long.
    Idle,
    /// The link ended.
    Ended,
    /// A call on the link failed.
    Failed,
    /// There was no room for one more event.
    Full,
    /// What came begins no message.
    Garbled,
    /// The exchange was rejected, or could not be judged any further.
    Stopped,
    /// Want of memory.
    Memory,
}
