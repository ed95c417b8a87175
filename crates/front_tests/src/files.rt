//! Files and sinks.

use crate::tables::column;
use js_base::{CalmFiles, CalmSink, Files, MemFiles, MemSink, RealFiles, RealSink, Sink};
use std::alloc::{AllocError, Global};
use std::test::Fail;
use std::{env, fs, process};

/// What is asked of files in memory, where a name stands twice and the calls 1, 3, 4 and 6 fail. A step is to load the
/// bytes under a name, at most so many, or to save a text there.
const OF_MEMORY: &str = "\
    load | a | 3\n\
    load | a | 3\n\
    save | b | more\n\
    load | c | 3\n\
    load | a | 2\n\
    save | d | new\n\
    save | d | lost\n\
    save | a | x\n\
    load | d | 9\n\
    load | b | 9";

/// What is asked of calm files.
const OF_CALM_FILES: &str = "\
    load | a | 3\n\
    load | a | 2\n\
    load | b | 0\n\
    save | b | new\n\
    load | b | 3";

/// What is asked of a file of the system that is not there, whose name stands for NAME.
const OF_SYSTEM: &str = "\
    load | NAME | 9\n\
    save | NAME | abc\n\
    load | NAME | 3\n\
    load | NAME | 2\n\
    load | NAME | 18446744073709551615";

/// What is loaded under a name, in words.
fn loaded(files: &mut impl Files, alloc: Global, name: &str, most: usize) -> Result<String, Fail> {
    match files.load(alloc, name, most) {
        Ok(bytes) => Ok(format!(in alloc; " [{}]", str::from_utf8(&bytes)?)?),
        Err(why) => Ok(format!(in alloc; " {why}")?),
    }
}

/// What is answered where a text is saved, in words.
fn saved(
    files: &mut impl Files,
    alloc: Global,
    name: &str,
    text: &str,
) -> Result<String, AllocError> {
    match files.save(alloc, name, text.as_bytes()) {
        Ok(()) => String::from_str(alloc, " saved"),
        Err(why) => format!(in alloc; " {why}"),
    }
}

/// What files answer to a step.
fn answer(files: &mut impl Files, alloc: Global, step: &str) -> Result<String, Fail> {
    let name = column(step, 1);
    if column(step, 0) == "load" {
        return loaded(files, alloc, name, column(step, 2).parse::<usize>()?);
    }
    Ok(saved(files, alloc, name, column(step, 2))?)
}

/// What files answer to steps.
fn answers(files: &mut impl Files, alloc: Global, steps: &str) -> Result<String, Fail> {
    let mut all = String::new(alloc);
    for step in steps.lines() {
        all.push_str(answer(files, alloc, step)?.as_str())?;
    }
    Ok(all)
}

/// What a sink answers to a text that is put, in words.
fn put(sink: &mut impl Sink, alloc: Global, text: &str) -> Result<String, AllocError> {
    match sink.put(alloc, text.as_bytes()) {
        Ok(()) => String::from_str(alloc, " put"),
        Err(why) => format!(in alloc; " {why}"),
    }
}

/// What a sink answers to each word.
fn puts(sink: &mut impl Sink, alloc: Global, words: &str) -> Result<String, AllocError> {
    let mut all = String::new(alloc);
    for word in words.split_whitespace() {
        all.push_str(put(sink, alloc, word)?.as_str())?;
    }
    Ok(all)
}

/// Names and what is held under them.
fn named(alloc: Global, files: &str) -> Result<Vec<(String, Vec<u8>)>, AllocError> {
    let mut named = Vec::new(alloc);
    for row in files.lines() {
        let bytes = Vec::from_slice(alloc, column(row, 1).as_bytes())?;
        named.push((String::from_str(alloc, column(row, 0))?, bytes))?;
    }
    Ok(named)
}

/// A file in the folder for what passes, of this process alone.
fn own_name(rt: &HostRuntime, kind: &str) -> Result<String, Fail> {
    let folder = env::temp_dir(rt)?;
    let id = process::id(rt.process());
    Ok(format!(in rt.alloc(); "{}/front_tests_{kind}_{id}", folder.as_path().as_str())?)
}

#[test]
fn holds_files_in_memory(rt: HostRuntime) -> Result<(), Fail> {
    let alloc = rt.alloc();
    let given = named(alloc, "a | one\nb | \na | two")?;
    let mut files = MemFiles::new(given, Vec::from_slice(alloc, &[1, 3, 4, 6])?);
    let expected =
        " [one] file fault saved no such file too long saved file fault saved [new] [more]";
    assert_eq!(rt; answers(&mut files, alloc, OF_MEMORY)?.as_str(), expected);
    assert_eq!(rt; files.held("a"), Some(b"x".as_slice()));
    Ok(())
}

#[test]
fn holds_every_name(rt: HostRuntime) -> Result<(), Fail> {
    let alloc = rt.alloc();
    let mut files = CalmFiles::new(named(alloc, "a | one\na | two")?);
    let expected = " [one] too long [] saved [new]";
    assert_eq!(rt;
        answers(&mut files, alloc, OF_CALM_FILES)?.as_str(),
        expected
    );
    Ok(())
}

#[test]
fn reaches_files_of_the_system(rt: HostRuntime) -> Result<(), Fail> {
    let alloc = rt.alloc();
    let name = own_name(&rt, "files")?;
    let steps = OF_SYSTEM.replace(alloc, "NAME", name.as_str())?;
    let mut files = RealFiles::new(rt.clone()?);
    let held = answers(&mut files, alloc, steps.as_str())?;
    fs::remove_file(&rt, name.as_str())?;
    assert_eq!(rt; held.as_str(), " no such file saved [abc] too long [abc]");
    Ok(())
}

#[test]
fn reaches_no_file_in_the_system(rt: HostRuntime) -> Result<(), Fail> {
    let alloc = rt.alloc();
    let folder = env::temp_dir(&rt)?;
    let mut files = RealFiles::new(rt.clone()?);
    let of_folder = loaded(&mut files, alloc, folder.as_path().as_str(), 9)?;
    assert_eq!(rt; of_folder.as_str(), " file fault");
    let in_no_folder = saved(&mut files, alloc, "no_such_folder/x", "")?;
    assert_eq!(rt; in_no_folder.as_str(), " file fault");
    Ok(())
}

#[test]
fn takes_bytes_in_memory(rt: HostRuntime) -> Result<(), Fail> {
    let alloc = rt.alloc();
    let mut sink = MemSink::new(alloc, Vec::from_slice(alloc, &[1])?);
    let answers = puts(&mut sink, alloc, "ab cd ef")?;
    assert_eq!(rt; answers.as_str(), " put output fault put");
    assert_eq!(rt; sink.taken(), b"abef".as_slice());
    let answers = puts(&mut CalmSink::new(alloc), alloc, "ab")?;
    assert_eq!(rt; answers.as_str(), " put");
    Ok(())
}

/// What a sink over a new file answers.
fn written(rt: &HostRuntime, name: &str) -> Result<String, Fail> {
    let mut sink = RealSink::new(fs::create(rt, name)?);
    Ok(puts(&mut sink, rt.alloc(), "ab c")?)
}

/// What a sink answers over a file that is open for reading alone, so that no byte can be written.
fn refused(rt: &HostRuntime, name: &str) -> Result<String, Fail> {
    let mut broken = RealSink::new(fs::open(rt, name)?);
    Ok(puts(&mut broken, rt.alloc(), "d")?)
}

#[test]
fn writes_to_a_writer(rt: HostRuntime) -> Result<(), Fail> {
    let name = own_name(&rt, "sink")?;
    let answers = written(&rt, name.as_str())?;
    let bytes = fs::read(&rt, name.as_str())?;
    let refusals = refused(&rt, name.as_str())?;
    fs::remove_file(&rt, name.as_str())?;
    assert_eq!(rt; answers.as_str(), " put put");
    assert_eq!(rt; bytes.as_slice(), b"abc".as_slice());
    assert_eq!(rt; refusals.as_str(), " output fault");
    Ok(())
}
