//! What changed files are refused for. The places and faults were worked out by another reader of split files.

use crate::tables::{columns, put};
use crate::whole_file::whole_file;
use host_code::MOST_ITEMS;
use split_file::read;
use std::alloc::Global;
use std::process::Abort;
use std::test::Fail;

/// Changes before the instructions: the refusal, or `read` where the file is still one; a place and the byte that is
/// put there; and what that changes.
const TABLES: &str = "\
    BadMagic | 0 75 | magic\n\
    BadMagic | 7 0 | magic\n\
    BadVersion | 8 1 | version\n\
    BadVersion | 9 3 | version\n\
    BadVersion | 9 0 | version\n\
    BadField(8) | 9 2 | version\n\
    BadField(10) | 10 1 | hosts\n\
    BadField(10) | 13 0 | hosts\n\
    Short | 13 1 | hosts\n\
    BadField(10) | 13 17 | hosts\n\
    BadField(14) | 17 0 | host A\n\
    Short | 14 1 | host A\n\
    BadField(14) | 18 57 | host A\n\
    read | 18 95 | host A\n\
    read | 19 0 | label of A\n\
    read | 1047 9 | label of B\n\
    Short | 1051 1 | labels\n\
    read | 1556 3 | label 0\n\
    Short | 2079 1 | fields\n\
    BadField(2080) | 2084 46 | name x\n\
    BadField(2085) | 2088 2 | label x\n\
    read | 2088 1 | label x\n\
    BadField(2089) | 2092 0 | size x\n\
    BadField(2089) | 2090 1 | size x\n\
    BadField(2089) | 2089 1 | size x\n\
    BadField(2089) | 2093 0 | array x\n\
    BadField(2093) | 2093 2 | array x\n\
    read | 2094 0 | first x\n\
    BadField(2102) | 2102 2 | host of x\n\
    read | 2102 1 | host of x\n\
    BadField(2112) | 2115 2 | size y\n\
    read | 2116 1 | array y\n\
    BadField(2108) | 2108 1 | label y\n\
    BadField(2130) | 2138 45 | name main.v\n\
    BadField(2130) | 2134 57 | name main.v\n\
    read | 2150 78 | name f.return\n\
    BadField(2144) | 2149 95 | name f.return\n\
    BadField(2144) | 2147 9 | name f.return\n\
    BadField(2140) | 2143 2 | label main.v\n\
    BadField(2237) | 2164 1 | e0 host\n\
    BadField(2164) | 2164 2 | e0 host\n\
    BadField(2165) | 2168 1 | e0 at\n\
    BadField(2169) | 2172 2 | e0 label\n\
    read | 2173 255 | e0 need\n\
    read | 2185 14 | e1 at\n\
    BadField(2182) | 2185 15 | e1 at\n\
    BadField(2186) | 2188 1 | e1 label\n\
    BadField(2238) | 2181 1 | e1 host\n\
    BadField(2199) | 2202 1 | e2 at\n\
    read | 2202 0 | e2 at\n\
    BadField(2290) | 2219 1 | e3 at\n\
    BadField(2373) | 2219 4 | e3 at\n\
    BadField(2216) | 2216 255 | e3 at\n\
    BadField(2477) | 2198 0 | e2 host\n\
    BadField(2406) | 2236 1 | site 1\n\
    BadField(2236) | 2236 2 | site 1\n\
    BadField(2237) | 2237 1 | root\n\
    BadField(2237) | 2237 2 | root\n\
    read | 2241 0 | main\n\
    BadField(2238) | 2241 2 | main\n\
    BadField(2238) | 2241 4 | main";

/// Changes of the instructions. The last column has an instruction, or an operand by its number.
const INSTRUCTIONS: &str = "\
    BadField(2519) | 2245 14 | A\n\
    BadField(2563) | 2245 16 | A\n\
    read | 2249 1 | i0\n\
    BadField(2246) | 2249 2 | i0\n\
    read | 2250 255 | i0 statement\n\
    BadField(2254) | 2254 0 | i0 op\n\
    BadField(2254) | 2254 15 | i0 op\n\
    BadField(2268) | 2254 13 | i0 op\n\
    BadField(2255) | 2258 2 | i0 0\n\
    BadField(2259) | 2262 0 | i0 1\n\
    BadField(2259) | 2261 1 | i0 1\n\
    BadField(2272) | 2262 2 | i0 1\n\
    BadField(2263) | 2263 0 | i0 1\n\
    BadField(2263) | 2263 19 | i0 1\n\
    BadField(2264) | 2263 3 | i0 1\n\
    BadField(2281) | 2284 2 | i1 0\n\
    read | 2289 2 | i1 1\n\
    BadField(2290) | 2293 1 | i1 1\n\
    BadField(2312) | 2315 2 | i2 1\n\
    BadField(2368) | 2358 2 | i4 1\n\
    read | 2382 12 | i4 2\n\
    BadField(2368) | 2382 4 | i4 2\n\
    BadField(2368) | 2382 5 | i4 2\n\
    BadField(2378) | 2377 7 | i4 2\n\
    BadField(2378) | 2381 2 | i4 2\n\
    BadField(2396) | 2396 0 | i5 1\n\
    BadField(2396) | 2396 2 | i5 1\n\
    BadField(2406) | 2409 0 | i6 0\n\
    BadField(2406) | 2409 2 | i6 0\n\
    BadField(2423) | 2436 6 | i7 1\n\
    read | 2436 5 | i7 1\n\
    read | 2449 1 | i8 0\n\
    BadField(2450) | 2450 0 | i8 1\n\
    BadField(2460) | 2463 0 | i9 0\n\
    BadField(2460) | 2463 2 | i9 0\n\
    BadField(2460) | 2463 4 | i9 0\n\
    read | 2463 1 | i9 0\n\
    BadField(2473) | 2476 0 | i10 0\n\
    BadField(2477) | 2476 3 | i10 0\n\
    BadField(2473) | 2476 4 | i10 0\n\
    BadField(2477) | 2477 0 | i10 1\n\
    BadField(2477) | 2477 2 | i10 1\n\
    BadField(2491) | 2490 2 | i11 0\n\
    read | 2490 3 | i11 0\n\
    BadField(2491) | 2491 1 | i11 1\n\
    BadField(2515) | 2518 15 | i12 1\n\
    read | 2518 14 | i12 1\n\
    read | 2514 4 | i12 0\n\
    read | 2531 0 | i13 0\n\
    BadField(2541) | 2549 9 | i14 op\n\
    BadField(2541) | 2549 11 | i14 op\n\
    Trailing | 2558 0 | B\n\
    Short | 2558 2 | B\n\
    Short | 2567 9 | i15 op\n\
    read | 2562 1 | i15\n\
    BadField(2559) | 2562 2 | i15";

/// Two changes each. Of two faults the first comes, and one that is told last comes only where all else is sound.
const PAIRS: &str = "\
    BadField(2541) | 2185 15, 2544 9 | e1 at, i14\n\
    BadField(2182) | 2185 15, 2219 99 | e1 at, e3 at\n\
    BadField(2089) | 2093 2, 2092 0 | array x, size x\n\
    BadField(2112) | 2116 0, 2115 2 | array y, size y\n\
    BadField(2116) | 2115 2, 2116 9 | size y, array y\n\
    BadField(2112) | 2115 2, 2117 7 | size y, first y\n\
    BadField(2372) | 2382 4, 2372 19 | i4 2, i4 2\n\
    BadField(2259) | 2262 0, 2263 99 | i0 1, i0 1\n\
    BadField(2473) | 2476 0, 2477 0 | i10 0, i10 1\n\
    BadField(2477) | 2476 1, 2477 0 | i10 0, i10 1\n\
    BadField(2237) | 2241 2, 2237 1 | main, root\n\
    BadField(2541) | 2549 9, 2544 2 | i14 op, i14\n\
    BadMagic | 9 2, 0 0 | version, magic\n\
    BadField(8) | 9 2, 2185 15 | version, e1 at\n\
    Trailing | 9 2, 2558 0 | version, B\n\
    BadField(2255) | 9 2, 2254 15 | version, i0 op\n\
    BadVersion | 13 0, 9 9 | hosts, version";

/// What a file is refused for, or `read`.
fn outcome(rt: &impl Abort, alloc: Global, bytes: &[u8]) -> Result<String, Fail> {
    assert!(rt; bytes.len() <= MOST_ITEMS);
    match read(alloc, bytes).err() {
        None => Ok(format!(in alloc; "read")?),
        Some(error) => Ok(format!(in alloc; "{error:?}")?),
    }
}

/// The bytes have this outcome.
pub fn have_outcome(
    rt: &impl Abort,
    alloc: Global,
    bytes: &[u8],
    wanted: &str,
    at: &str,
) -> Result<(), Fail> {
    let found = outcome(rt, alloc, bytes)?;
    assert_eq!(rt; found.as_str(), wanted, "{at}");
    Ok(())
}

/// Puts a byte at its place.
fn change(bytes: &mut [u8], said: &str) -> Result<(), Fail> {
    let (place, byte) = said.split_once(' ').unwrap_or((said, ""));
    put(bytes, place.parse::<usize>()?, byte.parse::<u8>()?)
}

/// The bytes with the changes.
pub fn changed(mut bytes: Vec<u8>, changes: &str) -> Result<Vec<u8>, Fail> {
    for said in changes.split(", ") {
        change(&mut bytes, said)?;
    }
    Ok(bytes)
}

/// The changes of each row have its outcome.
fn have_outcomes(rt: &impl Abort, alloc: Global, rows: &str) -> Result<(), Fail> {
    for row in rows.lines() {
        let (wanted, changes, _changed) = columns(row);
        let bytes = changed(whole_file(alloc)?, changes)?;
        have_outcome(rt, alloc, &bytes, wanted, row)?;
    }
    Ok(())
}

#[test]
fn changed_tables(rt: HostRuntime) -> Result<(), Fail> {
    have_outcomes(&rt, rt.alloc(), TABLES)
}

#[test]
fn changed_instructions(rt: HostRuntime) -> Result<(), Fail> {
    have_outcomes(&rt, rt.alloc(), INSTRUCTIONS)
}

#[test]
fn two_faults(rt: HostRuntime) -> Result<(), Fail> {
    have_outcomes(&rt, rt.alloc(), PAIRS)
}

#[test]
fn cut_off(rt: HostRuntime) -> Result<(), Fail> {
    let bytes = whole_file(rt.alloc())?;
    for len in 0..bytes.len() {
        have_outcome(&rt, rt.alloc(), &bytes[..len], "Short", "cut off")?;
    }
    Ok(())
}

#[test]
fn bytes_left(rt: HostRuntime) -> Result<(), Fail> {
    let mut bytes = whole_file(rt.alloc())?;
    bytes.push(0)?;
    have_outcome(&rt, rt.alloc(), &bytes, "Trailing", "a byte left")
}
