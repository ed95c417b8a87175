//! The stores with which programs start.

use crate::tables::word;
use jif_tree::{Field, Program, Row, Store};
use js_base::MethodId;
use label_lattice::Label;
use std::process::Abort;
use std::test::Fail;

/// Places in an array of three, and what is read there once 5 was written at the last.
const READ: &str = "0 -7\n1 -7\n2 5\n3 0\n-1 0\n-9223372036854775808 0";

/// An array of three.
fn array_of_three(rt: &impl AllocGlobal) -> Result<Field, Fail> {
    Ok(Field {
        name: String::from_str(rt.alloc(), "t")?,
        label: Label::empty(),
        size: 3,
        array: true,
        first: -7,
    })
}

/// A program of this array alone, as no text gives it.
fn of_one_array(rt: &impl AllocGlobal) -> Result<Program, Fail> {
    Ok(Program {
        fields: vec![in rt.alloc(); array_of_three(rt)?]?,
        vars: Vec::new(rt.alloc()),
        methods: Vec::new(rt.alloc()),
        main: MethodId(0),
    })
}

/// The elements of the table are read.
fn assert_read(rt: &impl Abort, row: &Row) -> Result<(), Fail> {
    for line in READ.lines() {
        let index = word(line, 0).parse::<i64>()?;
        let due = word(line, 1).parse::<i64>()?;
        assert_eq!(rt; row.element(index), due, "at {index}");
    }
    Ok(())
}

#[test]
fn starts_with_the_values_of_the_text_and_reads_and_writes_in_range_alone(
    rt: HostRuntime,
) -> Result<(), Fail> {
    let store = Store::starting(rt.alloc(), &of_one_array(&rt)?)?;
    assert_eq!(rt; store.rows().len(), 1);
    assert_eq!(rt; store.rows()[0].elements(), [-7, -7, -7].as_slice());
    let mut row = store.rows()[0].copied(rt.alloc())?;
    row.set_element(2, 5);
    row.set_element(3, 6);
    row.set_element(-1, 6);
    assert_read(&rt, &row)?;
    assert_eq!(rt; row.elements().len(), 3);
    assert_eq!(rt; Row::empty(rt.alloc()).elements().len(), 0);
    Ok(())
}
