//! The chart of a run, as an SVG text.

ghost use Rattle.std.specs.Prelude.{◌≡◌, All, IfOk, string_bytes};
ghost use Rattle.jif_tree.specs.Trees.{program_tree};
ghost use Rattle.front_end.specs.PlacedCode.{code_of};
ghost use Rattle.front_end.specs.PlacedShapes.{placed_shape};
ghost use Rattle.net_world.specs.Fits.{WorldFits, world_of};
ghost use Rattle.run_rows.specs.Rows.{WhatFits};
ghost use Rattle.run_picture.specs.RunCharts.{source_by, source_with, text_of};

use front_end::{PlacedSource, statement_lines};
use host_code::Code;
use jif_tree::Program;
use js_base::OutOfMemory;
use net_world::World;
use principals::Principals;
use run_chart::push_chart;
use run_rows::Run;
use run_sheet::{RunSource, sheet_of};
use statement_texts::texts_of;
use std::alloc::Global;

/// The chart of a run of a program in its places, from its rows and the world that its events left. On these hosts
/// a thread ran before the first event.
///
/// # Errors
/// Memory ran out.
pub fn run_text(
    alloc: Global,
    placed: &PlacedSource,
    code: &Code,
    world: &World,
    run: &Run,
    running: &[bool],
) -> Result<String, OutOfMemory>
    requires code { code.now ≡ code_of (placed_shape placed.now) }
    requires fits { WorldFits code.now world.now }
    requires rows { All (λ row. WhatFits code.now row.what) run.now.rows.items }
    ensures { IfOk result (λ text. string_bytes text
        ≡ text_of (source_with (placed_shape placed.now) run.now.rows.items run.now.senders running.now
        (world_of world.now))) }
{
    let source = &placed.source;
    let hosts = placed.hosts();
    let program = &source.checked.program;
    drawing(
        alloc,
        program,
        hosts.principals(),
        code,
        world,
        run,
        running,
    )
}

/// The chart of a run of a program and its code, over these principals.
fn drawing(
    alloc: Global,
    program: &Program,
    principals: &Principals,
    code: &Code,
    world: &World,
    run: &Run,
    running: &[bool],
) -> Result<String, OutOfMemory>
    requires fits { WorldFits code.now world.now }
    requires rows { All (λ row. WhatFits code.now row.what) run.now.rows.items }
    ensures { IfOk result (λ text. string_bytes text
        ≡ text_of (source_by (program_tree program.now) principals.now code.now run.now.rows.items run.now.senders
        running.now (world_of world.now))) }
{
    let texts = texts_of(alloc, program, principals)?;
    let lines = statement_lines(alloc, program)?;
    let source = RunSource {
        code,
        principals,
        texts: &texts,
        lines: &lines,
        rows: &run.rows,
        senders: &run.senders,
        running,
        world,
    };
    let sheet = sheet_of(alloc, &source)?;
    let mut text = String::new(alloc);
    push_chart(alloc, &mut text, &sheet)?;
    Ok(text)
}
