//! Places of pieces in messages.

/// Where the pieces of a message stand that a pattern cuts it into. The first `count` spans are the places at which the pieces begin
/// and their lengths, one for each item in order; the others are `(0, 0)`.
#[derive(Clone, Copy, Debug, PartialEq, Eq)]
pub struct Cut {
    pub spans: [(usize, usize); 16],
    pub count: usize,
}
