//! Where the walk of a block stands.

use js_base::HostId;

/// Which host runs the statements of a block from some statement on.
#[derive(Clone, Copy)]
pub struct Spot {
    /// The host that holds the token of the block.
    pub host: HostId,
    /// The host that gets the token at the end of the segment, `None` where it is handed on to `host`.
    pub back: Option<HostId>,
}

impl Spot {
    ghost use Rattle.std.specs.Prelude.{◌≡◌};
    ghost use Rattle.msg_cost.specs.Moves.{on, end_of};

    /// The host holds the token for the rest of the block.
    pub fn on(host: HostId) -> Spot
        ensures { result ≡ on host }
    {
        Spot { host, back: None }
    }

    /// The host that holds the token once the spot is left.
    pub fn end(self) -> HostId
        ensures { result ≡ end_of self }
    {
        self.back.unwrap_or(self.host)
    }
}

ghost use Rattle.std.specs.Prelude.{◌≡◌};
ghost use Rattle.msg_cost.specs.Moves.{straight_to};

/// The host to which the token goes from a spot straight to the next, and to which a value may ride.
pub fn straight_to(spot: Spot, next: Spot) -> Option<HostId>
    ensures { result ≡ straight_to spot next }
{
    if spot.host.0 == next.host.0 {
        return None;
    }
    match (spot.back, next.back) {
        (None, None) => Some(next.host),
        (None, Some(back)) => {
            if back.0 == spot.host.0 {
                Some(next.host)
            } else {
                None
            }
        }
        (Some(_), _) => None,
    }
}
