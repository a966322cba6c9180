//! Laws of the texts of exchanges.

ghost use Rattle.std.specs.Prelude.{◌≡◌, ◌<◌, ◌^◌, List, ℕ};
ghost use Rattle.spec_model.specs.declared.event.ClientEvent.{ClientEvent};
ghost use Rattle.spec_model.specs.declared.event.Shape.{Shape};
ghost use Rattle.spec_model.specs.World.{IsExchange};
ghost use Rattle.exchange_text.specs.ExchangeText.{exchange_text, FitsShape, IsExchangeRefused, Spells};
ghost use Rattle.exchange_text.specs.declared.refusal.TextRefusal.{TextRefusal};

/// Exactly one text spells an exchange, and a text spells at most one exchange.
pub fn one_spelling()
    ensures one_text { (exchange : List ClientEvent) → Spells (exchange_text exchange) exchange
        × ((text : List ℕ) → Spells text exchange → text ≡ exchange_text exchange) }
    ensures one_exchange { (shape other_shape : Shape) (exchange other : List ClientEvent) (text : List ℕ) →
        shape.conns < 2 ^ 16 → other_shape.conns < 2 ^ 16 → IsExchange shape exchange → IsExchange other_shape other →
        Spells text exchange → Spells text other → exchange ≡ other }
{}

/// A text has at most one refusal, and none where it spells an exchange that fits the shape.
pub fn one_refusal()
    ensures one { (shape : Shape) (text : List ℕ) (refusal other : TextRefusal) → shape.conns < 2 ^ 16 →
        IsExchangeRefused shape text refusal → IsExchangeRefused shape text other → refusal ≡ other }
    ensures none { (shape : Shape) (text : List ℕ) (exchange : List ClientEvent) (refusal : TextRefusal) → shape.conns < 2 ^ 16 →
        FitsShape shape exchange → Spells text exchange → ¬ IsExchangeRefused shape text refusal }
{}
