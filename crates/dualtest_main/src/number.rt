//! Numbers, as words spell them.

ghost use Rattle.std.specs.Prelude.{◌≡◌, ◌≢◌, ◌<◌, ◌≤◌, ◌^◌, IfNone, IfSome, decimal, ℕ};

use itoa::Buffer;

/// The number that a word spells in decimal, without sign and leading zeros, if it spells one of 64 bits.
fn spelled(word: &str) -> Option<u64>
    ensures some { IfSome result (λ number. word.now ≡ decimal number) }
    ensures one { IfSome result (λ number. (other : ℕ) → other < 2 ^ 64 → word.now ≡ decimal other → other ≡ number) }
    ensures none { IfNone result ((number : ℕ) → number < 2 ^ 64 → word.now ≢ decimal number) }
{
    let Ok(number) = word.parse::<u64>() else {
        return None;
    };
    let mut buffer = Buffer::new();
    if buffer.format(number) == word {
        Some(number)
    } else {
        None
    }
}

/// The number within these bounds that a word spells in decimal, without sign and leading zeros, if it spells one.
pub fn number(word: &str, least: u64, greatest: u64) -> Option<u64>
    ensures some { IfSome result (λ number. (word.now ≡ decimal number) × (least ≤ number) × (number ≤ greatest)) }
    ensures none { IfNone result ((number : ℕ) → least ≤ number → number ≤ greatest → word.now ≢ decimal number) }
{
    match spelled(word) {
        None => None,
        Some(number) if least <= number && number <= greatest => Some(number),
        Some(_) => None,
    }
}
