//! Values that stand for a list.
ghost use Rattle.std.specs.Prelude.{List};

/// A value that stands for a list of entries, and has a fixed part, for contracts alone.
/// Definition: own.
pub trait Listed: Drop {
    /// What the list is made of.
    type Entry;

    /// What stays the same under the lock.
    type Fixed;

    /// The list that the value stands for.
    ghost entries: { Self → List Self.Entry };

    /// The value's fixed part.
    ghost fixed: { Self → Self.Fixed };
}
