//! What holds of all hosts together, whatever the events. The calls do nothing: their contracts are the laws.

ghost use Rattle.std.specs.Prelude.{◌≡◌, ℕ, ◌+◌, ◌*◌, ◌≤◌, ℤ, Some, List, length};
ghost use Rattle.js_base.specs.declared.ids.HostId.{HostId};
ghost use Rattle.event_text.specs.declared.event.Event.{Event};
ghost use Rattle.host_core.specs.Host as host_state;
ghost use Rattle.jif_tree.specs.declared.program.Program.{Program};
ghost use Rattle.jif_tree.specs.SourceRun.{HasLength};
ghost use Rattle.net_world.specs.Choice.{NoneRuns, NothingFlies, IsNextEvent};
ghost use Rattle.net_world.specs.World.{WorldShape, IsStep, IsRun, world_at_start, state_at, has_halted};
ghost use Rattle.split_rules.specs.Placed.{PlacedProgram};
ghost use Rattle.split_rules.specs.SplitCode.{split_code};
ghost use Rattle.simulation.specs.Ending.{EVENTS, HaltsWithin};
ghost use Rattle.simulation.specs.Obeying.{CountedSteps, FollowsPlainRun, IsSet};

use jif_tree::altered_laws;
use split_rules::{pace_laws, split_laws, trust_laws};

/// Where all hosts obey, whatever the events: the fields follow the plain run of the program, and are those at its end
/// once it has halted. Where nothing is in flight and no thread runs, it has halted. No message is ever ignored. Before
/// that one event is possible, which is the event that comes next.
pub fn obeying_laws()
    ensures follows { (program : Program) (placed : PlacedProgram) (store : List (List ℤ)) (events : List Event)
        (world : WorldShape) →
        let code = split_code placed in
        IsSet program placed →
        IsRun code (world_at_start code placed.hosts.hosts 0 store) events world →
        FollowsPlainRun program code placed.hosts.hosts store events world }
    // So the fields in the end are those after some number of steps, which is the length of the run once it has halted.
    ensures counted { (program : Program) (placed : PlacedProgram) (store : List (List ℤ)) (events : List Event)
        (world : WorldShape) →
        let code = split_code placed in
        IsSet program placed →
        IsRun code (world_at_start code placed.hosts.hosts 0 store) events world →
        CountedSteps program code store world }
    ensures idle { (program : Program) (placed : PlacedProgram) (store : List (List ℤ)) (events : List Event)
        (world : WorldShape) →
        let code = split_code placed in
        IsSet program placed →
        IsRun code (world_at_start code placed.hosts.hosts 0 store) events world → NoneRuns world → NothingFlies world →
        has_halted code.root world }
    ensures ignored { (program : Program) (placed : PlacedProgram) (store : List (List ℤ)) (events : List Event)
        (world : WorldShape) (host : HostId)
        (state : host_state.HostState) →
        let code = split_code placed in
        IsSet program placed →
        IsRun code (world_at_start code placed.hosts.hosts 0 store) events world → state_at world host ≡ Some state →
        state.ignored ≡ 0 }
    ensures next { (program : Program) (placed : PlacedProgram) (store : List (List ℤ)) (events : List Event)
        (world : WorldShape) (event : Event) →
        let code = split_code placed in
        IsSet program placed →
        IsRun code (world_at_start code placed.hosts.hosts 0 store) events world → IsNextEvent world (Some event) →
        (after : WorldShape) × IsStep code world event after }
    ensures one { (program : Program) (placed : PlacedProgram) (store : List (List ℤ)) (events : List Event)
        (world after other : WorldShape)
        (first second : Event) →
        let code = split_code placed in
        IsSet program placed →
        IsRun code (world_at_start code placed.hosts.hosts 0 store) events world → IsStep code world first after →
        IsStep code world second other → first ≡ second }
{
    altered_laws();
    split_laws();
    trust_laws();
}

/// Where all hosts obey, they come to an end: where the plain run of a program has so many steps, no more than 4096
/// events are possible for each of them, and 4096 more. Where always the event that comes next happens, the program has
/// halted after so many.
pub fn ending_laws()
    ensures ends { (program : Program) (placed : PlacedProgram) (store : List (List ℤ)) (steps : ℕ)
        (events : List Event) (world : WorldShape) →
        let code = split_code placed in
        IsSet program placed → HasLength program store steps →
        IsRun code (world_at_start code placed.hosts.hosts 0 store) events world → length events ≤ EVENTS *
        (steps + 1) }
    ensures halts { (program : Program) (placed : PlacedProgram) (store : List (List ℤ)) (steps : ℕ) →
        let code = split_code placed in
        IsSet program placed → HasLength program store steps →
        HaltsWithin code (EVENTS * (steps + 1)) (world_at_start code placed.hosts.hosts 0 store) }
{
    altered_laws();
    split_laws();
    trust_laws();
    pace_laws();
}
