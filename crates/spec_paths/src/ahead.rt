//! What is ahead of a server on its paths to the next `recv`.

ghost use Rattle.std.specs.Prelude.{◌≡◌};
ghost use Rattle.spec_paths.specs.Bounds.{greater_of, lesser_of, one_more};
ghost use Rattle.spec_paths.specs.Ahead.{ahead_before, both_ahead, crowded_from, nothing_ahead, past_comparison};

/// What is ahead from some statements on.
#[derive(Clone, Copy)]
pub struct Ahead {
    /// The most statements that compare on a path to the next `recv`, counted up to 16; None where no path leads on.
    pub most: Option<u8>,
    /// The least place of a `recv` among them from which a path passes too many.
    pub crowded: Option<usize>,
}

/// The greater number of those that there are.
fn greater(a: Option<u8>, b: Option<u8>) -> Option<u8>
    ensures { result ≡ greater_of a b }
{
    match (a, b) {
        (None, b) => b,
        (a, None) => a,
        (Some(a), Some(b)) => Some(a.max(b)),
    }
}

/// The lesser number of those that there are.
pub fn lesser(a: Option<usize>, b: Option<usize>) -> Option<usize>
    ensures { result ≡ lesser_of a b }
{
    match (a, b) {
        (None, b) => b,
        (a, None) => a,
        (Some(a), Some(b)) => Some(a.min(b)),
    }
}

/// One more, counted up to 16.
fn one_more(most: Option<u8>) -> Option<u8>
    ensures { result ≡ one_more most }
{
    match most {
        None => None,
        Some(most) if most < 16 => Some(most + 1),
        Some(_) => Some(16),
    }
}

impl Ahead {
    /// What is ahead where there is no way to go on.
    pub fn nowhere() -> Ahead
        ensures { result ≡ nothing_ahead }
    {
        Ahead {
            most: None,
            crowded: None,
        }
    }

    /// What is ahead where the server goes on in either of two ways.
    pub fn or(self, other: Ahead) -> Ahead
        ensures { result ≡ both_ahead self other }
    {
        Ahead {
            most: greater(self.most, other.most),
            crowded: lesser(self.crowded, other.crowded),
        }
    }

    /// What is ahead of a statement that compares, before this.
    pub fn past_comparison(self) -> Ahead
        ensures { result ≡ past_comparison self }
    {
        Ahead {
            most: one_more(self.most),
            crowded: self.crowded,
        }
    }

    /// What is ahead of a statement in whose blocks this is ahead, where that is ahead behind it.
    pub fn before(self, later: Ahead) -> Ahead
        ensures { result ≡ ahead_before self later }
    {
        Ahead {
            most: self.most,
            crowded: lesser(self.crowded, later.crowded),
        }
    }

    /// The least place that is crowded where this is ahead from the place.
    pub fn crowded_from(self, at: usize) -> Option<usize>
        ensures { result ≡ crowded_from at self }
    {
        match self.most {
            Some(most) if most > 15 => lesser(Some(at), self.crowded),
            _ => self.crowded,
        }
    }
}
