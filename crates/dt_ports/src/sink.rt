//! An output that takes bytes.

ghost use Rattle.std.specs.Prelude.{◌≡◌, ◌<◌, ◌≤◌, ℕ, List, Option, length, take, IfOk, OnErr, OnOk};
ghost use Rattle.dt_ports.specs.Count.{faults_after};
ghost use Rattle.dt_ports.specs.Told.{taken_after, told_with};

use crate::count::Failed;

/// An output that takes bytes in order.
///
/// Each write that answers Failed raises the count of faults by one, and nothing else changes it, so it never falls.
///
/// An adapter over standard output keeps a `Count` and tells nothing (its `taken` is `None`). Where the system takes no
/// byte of a piece, that is a fault.
pub trait Sink {
    /// The bytes taken so far, where the sink tells them.
    ghost taken: { Self → Option (List ℕ) };

    /// How many writes failed.
    ghost faults: { Self → ℕ };

    /// Writes a piece, which is not empty, and answers how many of its first bytes were taken: one at least. After
    /// Failed none were.
    fn write(&mut self, piece: &[u8]) -> Result<usize, Failed>
        requires { 0 < length piece.now }
        ensures some { IfOk result (λ count. 0 < count) }
        ensures within { IfOk result (λ count. count ≤ length piece.now) }

        // What is told grows by exactly the bytes taken.
        ensures grows { taken self.new ≡ taken_after piece.now result (taken self.old) }
        ensures counted { faults self.new ≡ faults_after result (faults self.old) };
}

/// Writes all of the bytes, in as many writes as that takes. The first write that fails is the last, and the bytes
/// before it were taken.
pub fn write_all<S: Sink>(sink: &mut S, bytes: &[u8]) -> Result<(), Failed>
    ensures whole { OnOk result (S.taken sink.new ≡ told_with bytes.now (S.taken sink.old)) }
    ensures part { OnErr result ((count : ℕ) × (count < length bytes.now)
        × (S.taken sink.new ≡ told_with (take count bytes.now) (S.taken sink.old))) }
    ensures counted { S.faults sink.new ≡ faults_after result (S.faults sink.old) }
{
    let mut taken = 0;
    while taken < bytes.len() {
        taken += sink.write(&bytes[taken..])?;
    }
    Ok(())
}
