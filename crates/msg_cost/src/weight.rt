//! How often a message may be sent.

ghost use Rattle.std.specs.Prelude.{◌≡◌};
ghost use Rattle.msg_cost.specs.Terms.{inside};

/// How many loops around a message count in its weight.
pub const LOOP_DEPTH: u32 = 6;

/// The largest weight: eight for each loop that counts.
const MOST: u64 = 1 << (3 * LOOP_DEPTH);

/// The weight inside a loop of what stands at a place of this weight.
pub fn inside(weight: u64) -> u64
    ensures { result ≡ inside weight }
{
    weight.saturating_mul(8).min(MOST)
}
