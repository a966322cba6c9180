//! Laws of the texts of worlds.

ghost use Rattle.std.specs.Prelude.{◌≡◌, ◌<◌, ◌^◌, List, ℕ};
ghost use Rattle.std.specs.List.{AllByRecursion};
ghost use Rattle.spec_model.specs.declared.event.Shape.{Shape};
ghost use Rattle.spec_model.specs.declared.event.WorldEvent.{WorldEvent};
ghost use Rattle.exchange_text.specs.WorldText.{FitsWorld, IsWorldEvent, IsWorldRefused, SpellsWorld, world_text};
ghost use Rattle.exchange_text.specs.declared.refusal.TextRefusal.{TextRefusal};

/// Exactly one text spells a world, and a text spells at most one world.
pub fn one_spelling()
    ensures one_text { (world : List WorldEvent) → SpellsWorld (world_text world) world
        × ((text : List ℕ) → SpellsWorld text world → text ≡ world_text world) }
    ensures one_world { (shape other_shape : Shape) (world other : List WorldEvent) (text : List ℕ) →
        shape.conns < 2 ^ 16 → other_shape.conns < 2 ^ 16 →
        AllByRecursion (IsWorldEvent shape) world → AllByRecursion (IsWorldEvent other_shape) other →
        SpellsWorld text world → SpellsWorld text other → world ≡ other }
{}

/// A text has at most one refusal, and none where it spells a world that fits the shape.
pub fn one_refusal()
    ensures one { (shape : Shape) (text : List ℕ) (refusal other : TextRefusal) → shape.conns < 2 ^ 16 →
        IsWorldRefused shape text refusal → IsWorldRefused shape text other → refusal ≡ other }
    ensures none { (shape : Shape) (text : List ℕ) (world : List WorldEvent) (refusal : TextRefusal) → shape.conns < 2 ^ 16 →
        FitsWorld shape world → SpellsWorld text world → ¬ IsWorldRefused shape text refusal }
{}
