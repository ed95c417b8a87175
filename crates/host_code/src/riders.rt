//! Values that ride: variables whose values go to another host together with the thread.

ghost use Rattle.std.specs.Prelude.{◌≡◌, ◌<◌, ◌∷◌, [], ◌++◌, length};
ghost use Rattle.host_code.specs.Riders.{AreFew, riders_from};

use js_base::VarId;
use std::marker::Model;

/// The variables whose values ride together, at most.
pub const MOST_RIDERS: usize = 8;

/// What rides with one message: 1 to 8 variables with their values, in order.
///
/// The pairs behind the first `count` are blank, so that two `Riders` of the same pairs are the same.
#[derive(Clone, Copy, Debug)]
pub struct Riders {
    count: usize,
    pairs: [(VarId, i64); MOST_RIDERS],
}

impl Model for Riders {
    ghost use Rattle.std.specs.Prelude.{◌≡◌, List, length, take};
    ghost use Rattle.std.proofs.Common.{ap₂};
    ghost use Rattle.host_code.specs.Riders.{Rider, AreFew, padded};

    ghost Value = { List Rider };

    ghost view = { λ r. take r.count r.pairs };

    ghost invariant = { λ r. AreFew (take r.count r.pairs)
        × (length (take r.count r.pairs) ≡ r.count) × (padded (take r.count r.pairs) ≡ r.pairs) };

    ghost inverse = { λ riders. record { count = length riders; pairs = padded riders } };

    ghost inverse_ok = { λ a h. ap₂ (λ count pairs. record { count = count; pairs = pairs }) h.1 h.2 };
}

impl Riders {
    /// The riders of these pairs, or `None` where there are none or more than 8.
    pub fn of(pairs: &[(VarId, i64)]) -> Option<Riders>
        ensures { result ≡ riders_from pairs.now }
    {
        if pairs.is_empty() || pairs.len() > MOST_RIDERS {
            return None;
        }
        let mut all = [(VarId(0), 0); MOST_RIDERS];
        all[..pairs.len()].copy_from_slice(pairs);
        Some(Riders {
            count: pairs.len(),
            pairs: all,
        })
    }

    /// One variable with its value.
    pub fn one(pair: (VarId, i64)) -> Riders
        ensures { result ≡ pair ∷ [] }
    {
        let mut all = [(VarId(0), 0); MOST_RIDERS];
        all[0] = pair;
        Riders {
            count: 1,
            pairs: all,
        }
    }

    /// Puts one more behind the others.
    pub fn push(&mut self, pair: (VarId, i64))
        requires { length self.old < MOST_RIDERS }
        ensures { self.new ≡ self.old ++ pair ∷ [] }
    {
        self.pairs[self.count] = pair;
        self.count += 1;
    }

    /// The variables with their values, in order.
    pub fn pairs(&self) -> &[(VarId, i64)]
        ensures pairs { result.now ≡ self.now }
        ensures few { AreFew self.now }
    {
        &self.pairs[..self.count]
    }
}

/// The variables of an instruction whose values ride: 1 to 8, in order.
#[derive(Drop)]
pub struct RiderVars {
    vars: Vec<VarId>,
}

impl Model for RiderVars {
    ghost use Rattle.std.specs.Prelude.{List};
    ghost use Rattle.js_base.specs.declared.ids.VarId.{VarId};
    ghost use Rattle.host_code.specs.Riders.{AreFew};

    ghost Value = { List VarId };

    ghost view = { λ r. r.vars.items };

    ghost invariant = { λ r. AreFew r.vars.items };
}

impl RiderVars {
    /// These variables, 1 to 8.
    pub fn new(vars: Vec<VarId>) -> RiderVars
        requires { AreFew vars.items }
        ensures { result ≡ vars.items }
    {
        RiderVars { vars }
    }

    /// The variables in order.
    pub fn vars(&self) -> &[VarId]
        ensures vars { result.now ≡ self.now }
        ensures few { AreFew self.now }
    {
        &self.vars
    }
}
