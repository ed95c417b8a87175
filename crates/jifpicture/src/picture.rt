//! The picture of a program in its places, as an SVG text.

ghost use Rattle.std.specs.Prelude.{◌≡◌, IfOk};
ghost use Rattle.std.specs.String.{string_bytes};
ghost use Rattle.front_end.specs.PlacedShapes.{placed_shape};
ghost use Rattle.jif_tree.specs.Trees.{program_tree};
ghost use Rattle.plan_picture.specs.Picture.{plan_text};
ghost use Rattle.jifpicture.specs.Picture.{picture_text, sheet_by};

use front_end::{PlacedSource, code_of, statement_lines};
use host_code::Code;
use jif_tree::Program;
use js_base::OutOfMemory;
use need_labels::Plan;
use plan_picture::{PictureSheet, push_plan};
use plan_ways::ways_of;
use principals::Principals;
use releasing_statements::released_statements;
use statement_texts::texts_of;
use std::alloc::Global;

/// The picture of a program in its places: which host has which part of it, and how control and values go.
pub fn picture_text(alloc: Global, placed: &PlacedSource) -> Result<String, OutOfMemory>
    ensures { IfOk result (λ text. string_bytes text ≡ picture_text (placed_shape placed.now)) }
{
    let source = &placed.source;
    let code = code_of(alloc, placed)?;
    let hosts = placed.hosts();
    drawing(
        alloc,
        &source.checked.program,
        &code,
        &placed.plan,
        hosts.principals(),
        placed.cost(),
    )
}

/// The picture of a program, its code and the plan that this was made for, over these principals. The plan costs this.
fn drawing(
    alloc: Global,
    program: &Program,
    code: &Code,
    plan: &Plan,
    principals: &Principals,
    cost: u64,
) -> Result<String, OutOfMemory>
    ensures { IfOk result (λ text. string_bytes text
        ≡ plan_text (sheet_by (program_tree program.now) code.now plan.now principals.now cost)) }
{
    let texts = texts_of(alloc, program, principals)?;
    let lines = statement_lines(alloc, program)?;
    let released = released_statements(alloc, program)?;
    let ways = ways_of(alloc, code, plan, program)?;
    let sheet = PictureSheet {
        program,
        code,
        plan,
        principals,
        cost,
        texts: &texts,
        lines: &lines,
        released: &released,
        ways: &ways,
    };
    let mut text = String::new(alloc);
    push_plan(alloc, &mut text, &sheet)?;
    Ok(text)
}
