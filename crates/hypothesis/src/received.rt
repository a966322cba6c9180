//! What a receipt tells of a hypothesis.

/// What a receipt tells of a hypothesis.
#[derive(Clone, Copy, Debug, PartialEq, Eq)]
pub enum Received {
    /// The oldest message pending on the connection is the one received; it was taken out.
    Yes,
    /// The oldest message pending there is another one.
    No,
    /// No message is pending there.
    Nothing,
}
