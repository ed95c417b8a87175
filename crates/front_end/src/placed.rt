//! An accepted program with its hosts, and what is chosen for it: which hosts may hold what, and a plan.

ghost use Rattle.std.specs.Prelude.{◌≡◌, ℕ, List};
ghost use Rattle.js_base.specs.declared.limits.TheConstants.{PROGRAM_BYTES, HOSTS_BYTES};
ghost use Rattle.front_end.specs.PlacedCode.{cost_of};
ghost use Rattle.front_end.specs.Loading.{EndsAs, IsLoaded};
ghost use Rattle.front_end.specs.PlacedShapes.{placed_shape};
ghost use Rattle.front_end.specs.PlacedSources.{OnHosts, PlacedSources};
ghost use Rattle.front_end.specs.SourceShapes.{source_shape};

use crate::load::Loaded;
use crate::sources::{Source, read_sources};
use crate::stop::{Stop, stopped};
use crate::verdict::Verdict;
use host_decl::Hosts;
use msg_cost::cost;
use need_labels::{Needs, Plan, needs_of};
use place_rules::Allowed;
use placement::{place, placement_laws};
use std::alloc::Global;
use std::marker::Model;

/// An accepted program with its hosts, what it needs of them, which of them may hold what, and where it stands.
#[derive(Drop)]
pub struct PlacedSource {
    pub source: Source,
    pub needs: Needs,
    pub allowed: Allowed,
    pub plan: Plan,
}

impl Model for PlacedSource {
    ghost use Rattle.std.specs.Coded.{codes};
    ghost use Rattle.jif_tree.specs.contracts.program.Checked.{the_row};
    ghost use Rattle.front_end.specs.PlacedShapes.{IsWellPlaced, PlacedModel};

    ghost Value = { PlacedModel };

    ghost coded = { Prim.hlevel (codes, the_row.coded) };

    ghost view = { λ p. record { source = p.source; needs = p.needs; allowed = p.allowed; plan = p.plan } };

    ghost invariant = { λ p. IsWellPlaced
        (record { source = p.source; needs = p.needs; allowed = p.allowed; plan = p.plan }) };
}

impl PlacedSource {
    /// The hosts that its program is for.
    pub fn hosts(&self) -> &Hosts
        ensures { result.now ≡ self.now.source.hosts }
    {
        let source = &self.source;
        &source.hosts
    }

    /// The hosts alone.
    pub fn into_hosts(self) -> Hosts
        ensures { result ≡ self.source.hosts }
    {
        let PlacedSource { source, .. } = self;
        let Source { hosts, .. } = source;
        hosts
    }

    /// What its plan costs.
    pub fn cost(&self) -> u64
        ensures { result ≡ cost_of (placed_shape self.now) }
    {
        let source = &self.source;
        cost(&source.checked, &self.needs, &source.hosts, &self.plan)
    }
}

/// The accepted program of two files in its places on the hosts, or what is due where it is refused or has none.
pub fn read_places(alloc: Global, program: &Loaded, hosts: &Loaded) -> Result<PlacedSource, Stop>
    ensures { (p h : List ℕ) → IsLoaded PROGRAM_BYTES p program.now → IsLoaded HOSTS_BYTES h hosts.now →
        EndsAs placed_shape (PlacedSources p h) result }
{
    let source = read_sources(alloc, program, hosts)?;
    on_hosts(alloc, source)
}

/// The program in its places on its hosts, or what is due where some part of it has none.
pub fn on_hosts(alloc: Global, source: Source) -> Result<PlacedSource, Stop>
    ensures { EndsAs placed_shape (OnHosts (source_shape source)) result }
{
    placement_laws();
    let needs = needs_of(alloc, &source.checked, source.hosts.principals())?;
    match place(alloc, &source.checked, &needs, &source.hosts) {
        Ok((allowed, plan)) => Ok(PlacedSource {
            source,
            needs,
            allowed,
            plan,
        }),
        Err(why) => Err(stopped(Verdict::places_refused(alloc, &source.checked.program, why))),
    }
}
