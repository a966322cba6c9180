//! Laws of the texts of scripts, and of what scripts send.

ghost use Rattle.std.specs.Prelude.{◌≡◌, ◌<◌, ◌^◌, List, ℕ};
ghost use Rattle.std.specs.List.{AllByRecursion};
ghost use Rattle.spec_model.specs.Message.{IsMessage};
ghost use Rattle.spec_model.specs.declared.event.Shape.{Shape};
ghost use Rattle.exchange_text.specs.Actions.{AreParts};
ghost use Rattle.exchange_text.specs.Resolved.{resolved};
ghost use Rattle.exchange_text.specs.ScriptText.{FitsScript, IsScriptRefused, SpellsScript, script_text};
ghost use Rattle.exchange_text.specs.declared.action.Part.{Part};
ghost use Rattle.exchange_text.specs.declared.refusal.TextRefusal.{TextRefusal};
ghost use Rattle.exchange_text.specs.declared.script.Script.{Script};

/// Exactly one text spells a script, and a text spells at most one script.
pub fn one_spelling()
    ensures one_text { (script : Script) → SpellsScript (script_text script) script
        × ((text : List ℕ) → SpellsScript text script → text ≡ script_text script) }
    ensures one_script { (shape other_shape : Shape) (script other : Script) (text : List ℕ) →
        shape.conns < 2 ^ 16 → other_shape.conns < 2 ^ 16 → FitsScript shape script → FitsScript other_shape other →
        SpellsScript text script → SpellsScript text other → script ≡ other }
{}

/// A text has at most one refusal, and none where it spells a script that fits the shape.
pub fn one_refusal()
    ensures one { (shape : Shape) (text : List ℕ) (refusal other : TextRefusal) → shape.conns < 2 ^ 16 →
        IsScriptRefused shape text refusal → IsScriptRefused shape text other → refusal ≡ other }
    ensures none { (shape : Shape) (text : List ℕ) (script : Script) (refusal : TextRefusal) → shape.conns < 2 ^ 16 →
        FitsScript shape script → SpellsScript text script → ¬ IsScriptRefused shape text refusal }
{}

/// What the parts of a send make is a message, where what was received before are messages.
pub fn parts_make_a_message()
    ensures { (shape : Shape) (parts : List Part) (receipts : List (List ℕ)) → AreParts shape parts → AllByRecursion (IsMessage shape) receipts →
        IsMessage shape (resolved parts receipts) }
{}
