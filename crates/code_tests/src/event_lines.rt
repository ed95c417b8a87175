//! Events and settings are printed as scripts say them.

use crate::read_code::read_code;
use event_text::{EventsError, Script, event_line, read_events, read_values, setting_line};
use host_code::{Code, CodeField};
use std::alloc::Global;
use std::test::Fail;

/// Events as scripts say them where A and B misbehave, in the form in which they are printed.
const EVENTS: &str = "\
    turn A\n\
    take A B 0\n\
    take B A 18446744073709551615\n\
    act A B get 1.2 s -3\n\
    act B A get 0.0 n 0\n\
    act A B set 1.2 n 0 -5\n\
    act B A forward 1.0 2.3 main.v 9\n\
    act A B sync 0.18446744073709551615 0.0 e5 #0\n\
    act A B rgoto 0.0 e3 #0\n\
    act B A rgoto 0.0 e2 own:B:0.0:e0:0\n\
    act A B rgoto 0.0 e3 #0 with main.v 9\n\
    act B A rgoto 0.0 e2 own:B:0.0:e0:0 with main.v -9223372036854775808 main.v 0\n\
    act A B rgoto 7.1 e2 #2 with main.v 1 main.v 2 main.v 3 main.v 4 main.v 5 main.v 6 main.v 7 main.v 8\n\
    act A B lgoto #0\n\
    act A B lgoto #3\n\
    act B A lgoto own:A:4.3:e4294967295:18446744073709551615\n\
    act A B value 1.0 -9223372036854775808\n\
    act A B ack 4294967295.0\n\
    act A B token 1.0 own:B:4.3:e2:7";

/// The line that is printed for the only event of a script.
fn line_text(alloc: Global, code: &Code, script: &Script) -> Result<String, Fail> {
    match script.events() {
        [(_, event)] => Ok(event_line(alloc, code, event)?),
        _ => Err(Fail::from("other than one event")),
    }
}

#[test]
fn events_are_printed_as_they_are_said(rt: HostRuntime) -> Result<(), Fail> {
    let alloc = rt.alloc();
    let code = read_code(&rt, alloc)?;
    for line in EVENTS.lines() {
        let text = format!(in alloc; "bad A\nbad B\n{line}\n")?;
        let script = read_events(alloc, &code, text.as_str().as_bytes())?;
        let said = line_text(alloc, &code, &script)?;
        assert_eq!(rt; said.as_str(), line);
    }
    Ok(())
}

/// Settings of two elements of the array `s` and of the field `n`.
const SETTINGS: &str = "\
    set s 0 -9223372036854775808\n\
    set s 2 5\n\
    set n 0\n";

/// Adds a line for each element that is not what the elements of its field start with.
fn add_settings(
    alloc: Global,
    lines: &mut String,
    field: &CodeField,
    elements: &[i64],
) -> Result<(), Fail> {
    for (index, value) in elements.iter().enumerate() {
        if *value != field.first() {
            let line = setting_line(alloc, field, index, *value)?;
            lines.push_str(line.as_str())?;
            lines.push_str("\n")?;
        }
    }
    Ok(())
}

#[test]
fn settings_are_printed_as_they_are_set(rt: HostRuntime) -> Result<(), Fail> {
    let alloc = rt.alloc();
    let code = read_code(&rt, alloc)?;
    let start = read_values(alloc, code.fields(), SETTINGS.as_bytes())?;
    let mut lines = String::new(alloc);
    for (field, row) in code.fields().iter().zip(start.rows()) {
        add_settings(alloc, &mut lines, field, row.elements())?;
    }
    assert_eq!(rt; lines.as_str(), SETTINGS);
    Ok(())
}

/// What stands behind the token of an `rgoto` and is no list of 1 to 8 variables with values.
const NO_RIDERS: &str = "\
    with\n\
    with main.v\n\
    with main.v 1 main.v\n\
    with 1 main.v\n\
    with main.w 1\n\
    with main.v 01\n\
    with main.v 9223372036854775808\n\
    and main.v 1\n\
    with main.v 1 main.v 2 main.v 3 main.v 4 main.v 5 main.v 6 main.v 7 main.v 8 main.v 9";

#[test]
fn no_riders_have_no_form(rt: HostRuntime) -> Result<(), Fail> {
    let alloc = rt.alloc();
    let code = read_code(&rt, alloc)?;
    for behind in NO_RIDERS.lines() {
        let text = format!(in alloc; "bad A\nact A B rgoto 0.0 e3 #0 {behind}\n")?;
        let found = read_events(alloc, &code, text.as_str().as_bytes()).err();
        assert_eq!(rt; found, Some(EventsError::BadLine(2)), "{behind}");
    }
    Ok(())
}
