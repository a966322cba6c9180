//! Laws of frames on streams.

ghost use Rattle.std.specs.Prelude.{◌≡◌, ◌↔◌, ◌++◌, [], List, ℕ};
ghost use Rattle.std.specs.List.{concat};
ghost use Rattle.frame_cut.specs.declared.FrameCut.{FrameCut};
ghost use Rattle.frame_cut.specs.Frame.{IsCut, IsGarbled};
ghost use Rattle.frame_cut.specs.Stream.{CutsInto, CutsPieces};
ghost use Rattle.spec_model.specs.declared.event.Shape.{Shape};

/// The bytes at hand are one of the three, and begin with one frame at most.
pub fn one_answer()
    ensures { (shape : Shape) (bytes : List ℕ) (one other : FrameCut) → IsCut shape bytes one → IsCut shape bytes other → one ≡ other }
{}

/// All frames can be cut off any bytes, in one way.
pub fn one_cutting()
    ensures exists { (shape : Shape) (bytes : List ℕ) → (messages : List (List ℕ)) × (rest : List ℕ) × CutsInto shape bytes messages rest }
    ensures unique { (shape : Shape) (bytes : List ℕ) (messages others : List (List ℕ)) (rest left : List ℕ) →
        CutsInto shape bytes messages rest → CutsInto shape bytes others left → (messages ≡ others) × (rest ≡ left) }
{}

/// Bytes that come in two pieces: the messages of the first, and then those of its rest followed by the second, are the
/// messages of both, with the same rest.
pub fn two_pieces()
    ensures joins { (shape : Shape) (bytes more : List ℕ) (messages others : List (List ℕ)) (rest left : List ℕ) →
        CutsInto shape bytes messages rest → CutsInto shape (rest ++ more) others left → CutsInto shape (bytes ++ more) (messages ++ others) left }
    // What is garbled stays so, whatever comes, and gives no message.
    ensures garbled { (shape : Shape) (bytes more : List ℕ) → IsGarbled shape bytes →
        IsGarbled shape (bytes ++ more) × CutsInto shape (bytes ++ more) [] (bytes ++ more) }
{}

/// A stream has the same messages and the same rest in whatever pieces it comes.
pub fn any_pieces()
    ensures { (shape : Shape) (pieces messages : List (List ℕ)) (rest : List ℕ) →
        CutsPieces shape [] pieces messages rest ↔ CutsInto shape (concat pieces) messages rest }
{}
