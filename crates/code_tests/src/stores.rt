//! What a host keeps.

use crate::read_code::read_code;
use crate::tables::columns;
use event_text::{Script, read_events};
use host_code::Code;
use host_stores::{Stores, VarCell};
use js_base::{FieldId, FrameId, HostId, SiteId, VarId};
use std::alloc::Global;
use std::process::Abort;
use std::test::Fail;

const A: HostId = HostId(0);

const B: HostId = HostId(1);

/// The array of A.
const S: FieldId = FieldId(0);

/// The plain field of A.
const N: FieldId = FieldId(1);

/// The field of B.
const O: FieldId = FieldId(2);

/// Elements of A's fields are set. What is outside of them, of B or of no field, changes nothing.
fn lends_elements(rt: &impl Abort, stores: &mut Stores) {
    assert_eq!(rt; stores.elements(), [1, 1, 1, 2].as_slice());
    stores.set_field(N, 0, 6);
    stores.set_field(S, 1, 5);
    stores.set_field(S, 3, 8);
    stores.set_field(S, -1, 8);
    stores.set_field(O, 0, 9);
    stores.set_field(FieldId(3), 0, 9);
    assert_eq!(rt; stores.elements(), [1, 5, 1, 6].as_slice());
}

/// B has its own field alone.
fn lends_elsewhere(
    rt: &impl Abort,
    alloc: Global,
    code: &Code,
    script: &Script,
) -> Result<(), Fail> {
    let stores = Stores::new(alloc, code, B, script.start())?;
    assert_eq!(rt; stores.elements(), [7].as_slice());
    Ok(())
}

#[test]
fn lends_the_elements_of_its_own_fields_in_order(rt: HostRuntime) -> Result<(), Fail> {
    let alloc = rt.alloc();
    let code = read_code(&rt, alloc)?;
    let script = read_events(alloc, &code, b"")?;
    let mut stores = Stores::new(alloc, &code, A, script.start())?;
    lends_elements(&rt, &mut stores);
    lends_elsewhere(&rt, alloc, &code, &script)
}

/// What is set, in this order: the site and the count of a frame, a variable of it, and a value.
const SETS: &str = "\
    2 0 | 0 | 1\n\
    1 7 | 4 | 2\n\
    1 7 | 3 | 0\n\
    1 6 | 5 | 4\n\
    0 8 | 6 | 5\n\
    1 7 | 4 | -6";

/// What there is then.
const CELLS: &str = "\
    0 8 | 6 | 5\n\
    1 6 | 5 | 4\n\
    1 7 | 3 | 0\n\
    1 7 | 4 | -6\n\
    2 0 | 0 | 1\n";

/// The frame of a call, by its site and its count.
fn frame(text: &str) -> Result<FrameId, Fail> {
    let (site, count) = text.split_once(' ').unwrap_or((text, ""));
    Ok(FrameId {
        site: SiteId(site.parse::<u32>()?),
        count: count.parse::<u64>()?,
    })
}

/// Makes room for a variable, and sets it.
fn set(stores: &mut Stores, row: &str) -> Result<(), Fail> {
    let (at, var, value) = columns(row);
    let frame = frame(at)?;
    let var = VarId(var.parse::<u32>()?);
    let value = value.parse::<i64>()?;
    stores.reserve_vars(1)?;
    stores.set_var(frame, var, value);
    Ok(())
}

/// The rows of variables.
fn cell_rows(alloc: Global, cells: &[VarCell]) -> Result<String, Fail> {
    let mut rows = String::new(alloc);
    for cell in cells {
        let (frame, var) = (cell.frame, cell.var.0);
        let row = format!(in alloc;
            "{} {} | {var} | {}\n",
            frame.site.0, frame.count, cell.value
        )?;
        rows.push_str(&row)?;
    }
    Ok(rows)
}

/// The variables that are set are lent in their order.
fn lends_variables(rt: &impl Abort, alloc: Global, stores: &mut Stores) -> Result<(), Fail> {
    assert!(rt; stores.cells().is_empty());
    for row in SETS.lines() {
        set(stores, row)?;
    }
    let rows = cell_rows(alloc, stores.cells())?;
    assert_eq!(rt; rows.as_str(), CELLS);
    Ok(())
}

#[test]
fn lends_the_variables_by_site_and_count_and_number(rt: HostRuntime) -> Result<(), Fail> {
    let alloc = rt.alloc();
    let code = read_code(&rt, alloc)?;
    let script = read_events(alloc, &code, b"")?;
    let mut stores = Stores::new(alloc, &code, A, script.start())?;
    lends_variables(&rt, alloc, &mut stores)
}
