//! The ways and the relays of a plan.

ghost use Rattle.std.specs.Prelude.{◌≡◌, IfOk};
ghost use Rattle.jif_tree.specs.Trees.{program_tree};
ghost use Rattle.plan_ways.specs.Whole as whole;
ghost use Rattle.plan_ways.specs.Whole.{plan_ways_shape};

use crate::asking::{Sheet, ways_at};
use crate::ends::{Way, WayEnd};
use crate::lasts::{heads_of, lasts_of};
use crate::levels::{Level, Naming, behind_calls, levels_of, namings_of};
use crate::readers::readers_of;
use crate::relays::{Relay, RelaySheet, handed_of, marks_of, relays_of, spots_of};
use crate::stands::{Place, doors_of, places_of};
use host_code::Code;
use jif_tree::Program;
use js_base::OutOfMemory;
use need_labels::Plan;
use std::alloc::Global;

/// What the picture of a plan has between its boxes.
#[derive(Drop)]
pub struct PlanWays {
    /// In the order of hosts and instructions, and of the entries to which one instruction leads.
    pub ways: Vec<Way>,
    /// Those of greater entries first, which is the order of the rows behind one statement.
    pub relays: Vec<Relay>,
}

/// What is known of the entries of a code and of its places.
#[derive(Drop)]
struct Known {
    doors: Vec<WayEnd>,
    places: Vec<Place>,
    namings: Vec<Option<Naming>>,
    levels: Vec<Option<Level>>,
}

/// The ways and the relays of the code of a program in the places of a plan.
///
/// # Errors
/// Memory ran out.
pub fn ways_of(
    alloc: Global,
    code: &Code,
    plan: &Plan,
    program: &Program,
) -> Result<PlanWays, OutOfMemory>
    ensures { IfOk result (λ found. plan_ways_shape found
        ≡ whole.ways_of code.now plan.now (program_tree program.now)) }
{
    let known = known_of(alloc, code, program)?;
    let ways = ways_by(alloc, code, plan, &known)?;
    let lasts = lasts_of(alloc, program)?;
    let relays = relays_by(alloc, code, &known, &lasts, &ways)?;
    Ok(PlanWays { ways, relays })
}

/// What is known of the entries of a code and of its places.
fn known_of(alloc: Global, code: &Code, program: &Program) -> Result<Known, OutOfMemory>
    ensures { IfOk result (λ known. whole.known_shape known
        ≡ whole.known_of code.now (program_tree program.now)) }
{
    let heads = heads_of(alloc, program)?;
    let doors = doors_of(alloc, code, &heads)?;
    let places = places_of(alloc, code, &doors)?;
    let namings = namings_of(alloc, code, &places)?;
    let levels = levels_of(alloc, &heads, &namings)?;
    Ok(Known {
        doors,
        places,
        namings,
        levels,
    })
}

/// The ways, by what is known.
fn ways_by(alloc: Global, code: &Code, plan: &Plan, known: &Known) -> Result<Vec<Way>, OutOfMemory>
    ensures { IfOk result (λ found. found.items
        ≡ whole.ways_by code.now plan.now (whole.known_shape known.now)) }
{
    let behind = behind_calls(alloc, code, &known.places)?;
    let readers = readers_of(alloc, code)?;
    let sheet = Sheet {
        code,
        plan,
        doors: &known.doors,
        levels: &known.levels,
        behind: &behind,
        readers: &readers,
    };
    let found = ways_at(alloc, &sheet, &known.places)?;
    Ok(found)
}

/// The relays, by what is known and by the ways.
fn relays_by(
    alloc: Global,
    code: &Code,
    known: &Known,
    lasts: &[usize],
    ways: &[Way],
) -> Result<Vec<Relay>, OutOfMemory>
    ensures { IfOk result (λ found. found.items
        ≡ whole.relays_by code.now (whole.known_shape known.now) lasts.now ways.now) }
{
    let marks = marks_of(alloc, code.entries().len(), ways)?;
    let handed = handed_of(alloc, code, &known.levels, &known.places)?;
    let sheet = RelaySheet {
        code,
        namings: &known.namings,
        handed: &handed,
        marks: &marks,
    };
    let mut spots = spots_of(
        alloc,
        code,
        &known.doors,
        lasts,
        &known.namings,
        &known.levels,
        &known.places,
    )?;
    let found = relays_of(alloc, &sheet, &mut spots)?;
    Ok(found)
}
