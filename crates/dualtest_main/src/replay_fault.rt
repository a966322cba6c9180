//! Why a world does not explain an exchange.

/// Why a world does not explain an exchange, and of what its place is one.
#[derive(Clone, Copy, Debug, PartialEq, Eq)]
pub enum ReplayFault {
    /// The world is not legal; the place is that of an event of the world.
    NotLegal,
    /// The server events of the world are no run; the place is that of an event of the world.
    NotServer,
    /// The client events of the world are not the exchange; the place counts the events of clients, and one of the two may have
    /// none there.
    NotExchange,
}
