use crate::{RealSpawner, SpawnError, Spawner, Stand};
use std::alloc::Global;
use std::test::Fail;

/// For `answer` the program `sh` is started, with words that make it end with a status.
fn stand(alloc: Global) -> Result<Stand, Fail> {
    let mut first = Vec::new(alloc);
    first.push(String::from_str(alloc, "-c")?)?;
    first.push(String::from_str(alloc, "exit $0")?)?;
    Ok(Stand {
        name: String::from_str(alloc, "answer")?,
        file: String::from_str(alloc, "sh")?,
        first,
    })
}

#[test]
fn starts_and_waits(rt: HostRuntime) -> Result<(), Fail> {
    let alloc = rt.alloc();
    let mut spawner = RealSpawner::new(&rt, stand(alloc)?);
    let none = Vec::new(alloc);
    let Ok(yes) = spawner.spawn(alloc, "true", &none) else {
        return Err(Fail::from("not started"));
    };
    assert!(rt; spawner.wait(yes) == Ok(0));
    let Ok(no) = spawner.spawn(alloc, "false", &none) else {
        return Err(Fail::from("not started"));
    };
    assert!(rt; spawner.wait(no) == Ok(1));
    assert!(rt; spawner.spawn(alloc, "no_such_program", &none) == Err(SpawnError::Failed));
    Ok(())
}

#[test]
fn starts_what_stands_for_a_name(rt: HostRuntime) -> Result<(), Fail> {
    let alloc = rt.alloc();
    let mut spawner = RealSpawner::new(&rt, stand(alloc)?);
    let mut words = Vec::new(alloc);
    words.push(String::from_str(alloc, "9")?)?;
    let Ok(child) = spawner.spawn(alloc, "answer", &words) else {
        return Err(Fail::from("not started"));
    };
    assert!(rt; spawner.wait(child) == Ok(9));
    Ok(())
}
