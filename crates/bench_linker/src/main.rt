//! Defines so many pairs of names in the map of a linker, looks each up, and prints how many of them were found. It is
//! timed from outside. The words are how the pairs differ, `names` of one space or `spaces` of one name each, and how
//! many there are.
#![tactic(auto)]

use linker_map::LinkerMap;
use std::alloc::Global;
use std::{env, io};
use wasm_types::OutOfMemory;
use wasm_values::{Extern, Memory, StoreId, StoreIds};

/// The two names of a pair.
fn pair(alloc: Global, by_spaces: bool, number: u32) -> Result<(String, String), OutOfMemory> {
    let Ok(text) = format!(in alloc; "name {number}") else {
        return Err(OutOfMemory);
    };
    let other = String::from_str(alloc, "env")?;
    if by_spaces {
        Ok((text, other))
    } else {
        Ok((other, text))
    }
}

fn define_all(
    alloc: Global,
    map: &mut LinkerMap,
    id: StoreId,
    by_spaces: bool,
    count: u32,
) -> Result<(), OutOfMemory> {
    for number in 0..count {
        let (space, name) = pair(alloc, by_spaces, number)?;
        let item = Extern::Memory(Memory::from_parts(id, number as usize));
        map.put(space.as_str(), name.as_str(), item)?;
    }
    Ok(())
}

/// How many of the pairs are there.
fn found(alloc: Global, map: &LinkerMap, by_spaces: bool, count: u32) -> Result<u32, OutOfMemory> {
    let mut seen = 0u32;
    for number in 0..count {
        let (space, name) = pair(alloc, by_spaces, number)?;
        if map.get(space.as_str(), name.as_str()).is_some() {
            seen = seen.saturating_add(1);
        }
    }
    Ok(seen)
}

fn work(alloc: Global, by_spaces: bool, count: u32) -> Result<u32, OutOfMemory> {
    let Some(id) = StoreIds::new().allocate() else {
        return Ok(0);
    };
    let mut map = LinkerMap::new(alloc);
    define_all(alloc, &mut map, id, by_spaces, count)?;
    found(alloc, &map, by_spaces, count)
}

fn main(rt: HostRuntime) -> io::Result<()> {
    let words: Vec<String> = env::args(&rt)?.collect(rt.alloc())?;
    let by_spaces = match words.get(1) {
        Some(word) => word.as_str() == "spaces",
        None => false,
    };
    let count = match words.get(2) {
        Some(word) => word.as_str().parse::<u32>().unwrap_or(0),
        None => 0,
    };
    match work(rt.alloc(), by_spaces, count) {
        Ok(seen) => println!(rt; "{seen}"),
        Err(_) => println!(rt; "out of memory"),
    }
}
