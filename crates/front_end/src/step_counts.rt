//! Numbers of steps, events or turns that a word asks for.

ghost use Rattle.std.specs.Prelude.{◌≡◌, ◌≢◌, ◌↔◌, ℕ, IfSome, IfNone, IsTrue};
ghost use Rattle.std.specs.Fmt.{decimal};
ghost use Rattle.front_end.specs.StepCounts.{BeginsWithCount, IsStepCount};

/// The most steps, events or turns that can be asked for.
pub const STEPS: u64 = 1_000_000_000;

/// The number of steps, events or turns that a word writes in decimal digits, without leading zeros, where so many can
/// be asked for.
pub fn step_count(word: &str) -> Option<u64>
    ensures count { IfSome result IsStepCount }
    ensures found { IfSome result (λ steps. word.now ≡ decimal steps) }
    ensures none { IfNone result ((steps : ℕ) → IsStepCount steps → word.now ≢ decimal steps) }
{
    if !begins_with_count(word.as_bytes()) {
        return None;
    }
    let steps = word.parse::<u64>().ok()?;
    if steps <= STEPS { Some(steps) } else { None }
}

/// Whether bytes begin with a decimal digit other than 0.
fn begins_with_count(bytes: &[u8]) -> bool
    ensures { IsTrue result ↔ BeginsWithCount bytes.now }
{
    match bytes.first() {
        Some(first) => b'1' <= *first && *first <= b'9',
        None => false,
    }
}
