//! Laws of legal worlds, whatever the server may do.

ghost use Rattle.std.specs.Prelude.{◌≡◌, ◌⊎◌, ◌↔◌, ◌++◌, ◌∷◌, [], List, ℕ};
ghost use Rattle.spec_model.specs.declared.event.ClientEvent.{ClientEvent};
ghost use Rattle.spec_model.specs.declared.event.ClientEvent.TheVariants as clients;
ghost use Rattle.spec_model.specs.declared.event.Mark.{Mark};
ghost use Rattle.spec_model.specs.declared.event.ServerEvent.{ServerEvent};
ghost use Rattle.spec_model.specs.declared.event.WorldEvent.{WorldEvent};
ghost use Rattle.spec_model.specs.Layout.{IsShort, IsLate, IsKept, IsPending, MovesUpTo};
ghost use Rattle.spec_model.specs.Skeleton.{skeleton_of};
ghost use Rattle.spec_model.specs.World.{clients_of, server_of, IsPrefixOf, IsLegal};

/// Each legal world can be brought into the late layout: the clients do what they did, and the server does the first of
/// what it did, up to a short run.
pub fn late_layout()
    ensures { (world : List WorldEvent) → IsLegal world →
        (late : List WorldEvent) × IsLegal late × IsLate late × (clients_of late ≡ clients_of world)
        × IsPrefixOf (server_of late) (server_of world) × IsShort (clients_of late) (server_of late) }
{}

/// Which short runs some legal order explains an exchange with, when it has one event more: before any event only the empty
/// run; after a send of a client the same ones; after a receipt those in which the message was pending, and those
/// that move up to its send; after garbled bytes none.
pub fn one_event_more()
    ensures nothing { (events : List ServerEvent) → IsKept [] events ↔ (events ≡ []) }
    ensures sends { (exchange : List ClientEvent) (conn : ℕ) (message : List ℕ) (events : List ServerEvent) →
        IsKept (exchange ++ clients.Sends conn message ∷ []) events ↔ IsKept exchange events }
    ensures receives { (exchange : List ClientEvent) (conn : ℕ) (message : List ℕ) (events : List ServerEvent) →
        IsKept (exchange ++ clients.Receives conn message ∷ []) events
        ↔ (IsPending exchange events conn message ⊎ MovesUpTo exchange events conn message) }
    ensures garbles { (exchange : List ClientEvent) (conn : ℕ) (events : List ServerEvent) →
        ¬ IsKept (exchange ++ clients.Garbles conn ∷ []) events }
{}

/// Of the skeletons of the short runs that some legal order explains an exchange with, none is a proper beginning of another.
pub fn none_begins_another()
    ensures { (exchange : List ClientEvent) (events others : List ServerEvent) (more : List Mark) → IsKept exchange events → IsKept exchange others
        → skeleton_of others ≡ skeleton_of events ++ more → more ≡ [] }
{}
