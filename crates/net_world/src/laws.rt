//! Laws of the end of legality.

ghost use Rattle.std.specs.Prelude.{◌≡◌, List, ℕ};
ghost use Rattle.net_world.specs.declared.Why.{Why};
ghost use Rattle.net_world.specs.Legality.{EndsAt};
ghost use Rattle.spec_model.specs.declared.event.WorldEvent.{WorldEvent};
ghost use Rattle.spec_model.specs.World.{IsLegal};

/// Legality ends at one place, for one reason, and only where the world is not legal.
pub fn one_end()
    ensures one { (world : List WorldEvent) (place other : ℕ) (why reason : Why) → EndsAt world place why → EndsAt world other reason →
        (place ≡ other) × (why ≡ reason) }
    ensures not_legal { (world : List WorldEvent) (place : ℕ) (why : Why) → EndsAt world place why → ¬ IsLegal world }
{}
