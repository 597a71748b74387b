//! Does one kind of work on memories or tables so many times, and prints a number that it gives. It is timed from
//! outside, by bench/objects.py. The words are the kind of work and the number of times.
#![tactic(auto)]

ghost use Rattle.std.specs.Prelude.{◌≡◌, IfOk};

use std::alloc::Global;
use std::{env, io};
use wasm_objects::{MemoryObject, RawRef, TableObject};
use wasm_types::{HeapType, MemoryType, OutOfMemory, RefType, TableType};

const MIB: usize = 1_048_576;

const ELEMENTS: usize = 100_000;

const PAGE: usize = 65_536;

fn memory(alloc: Global, pages: u32) -> Result<MemoryObject, OutOfMemory>
    ensures { IfOk result (λ made. made.memory.ty.page_size_log2 ≡ 16) }
{
    match MemoryType::new(pages, None, 16) {
        Ok(ty) => MemoryObject::try_new(alloc, ty),
        Err(_) => Err(OutOfMemory),
    }
}

fn table(alloc: Global, size: u32) -> Result<TableObject, OutOfMemory> {
    let element = RefType::new(true, HeapType::Func);
    match TableType::new(element, size, None) {
        Ok(ty) => TableObject::try_new(alloc, ty, RawRef::Func(7)),
        Err(_) => Err(OutOfMemory),
    }
}

fn copy_bytes(alloc: Global, dst: usize, src: usize, times: u32) -> Result<u32, OutOfMemory> {
    let mut object = memory(alloc, 64)?;
    let mut done = 0u32;
    for _ in 0..times {
        if object.copy_within(dst, src, MIB) {
            done = done.saturating_add(1);
        }
    }
    Ok(done)
}

fn copy_bytes_from(alloc: Global, times: u32) -> Result<u32, OutOfMemory> {
    let other = memory(alloc, 64)?;
    let mut object = memory(alloc, 64)?;
    let mut done = 0u32;
    for _ in 0..times {
        if object.copy_from(5, &other, 3, MIB) {
            done = done.saturating_add(1);
        }
    }
    Ok(done)
}

/// Fills with another byte each time, and reads one of them, so that no fill is in vain.
fn fill_bytes(alloc: Global, times: u32) -> Result<u32, OutOfMemory> {
    let mut object = memory(alloc, 64)?;
    let mut seen = 0u32;
    for n in 0..times {
        if object.fill(5, (n % 251) as u8, MIB) {
            match object.bytes().get(n as usize) {
                Some(byte) => seen = seen.wrapping_add(u32::from(*byte)),
                None => {}
            }
        }
    }
    Ok(seen)
}

fn copy_elements(alloc: Global, dst: usize, src: usize, times: u32) -> Result<u32, OutOfMemory> {
    let mut object = table(alloc, 400_000)?;
    let mut done = 0u32;
    for _ in 0..times {
        if object.copy_within(dst, src, ELEMENTS) {
            done = done.saturating_add(1);
        }
    }
    Ok(done)
}

fn fill_elements(alloc: Global, times: u32) -> Result<u32, OutOfMemory> {
    let mut object = table(alloc, 400_000)?;
    let mut done = 0u32;
    for _ in 0..times {
        if object.fill(5, RawRef::Extern(9), ELEMENTS) {
            done = done.saturating_add(1);
        }
    }
    Ok(done)
}

fn grow_pages(alloc: Global, times: u32) -> Result<u32, OutOfMemory> {
    let mut object = memory(alloc, 0)?;
    let mut done = 0u32;
    for _ in 0..times {
        object.reserve(PAGE)?;
        object.grow(PAGE);
        done = done.saturating_add(1);
    }
    Ok(done)
}

fn new_memories(alloc: Global, times: u32) -> Result<u32, OutOfMemory> {
    let mut done = 0u32;
    for _ in 0..times {
        let _object = memory(alloc, 1_000)?;
        done = done.saturating_add(1);
    }
    Ok(done)
}

fn work(alloc: Global, kind: &str, times: u32) -> Result<u32, OutOfMemory> {
    match kind {
        "memory_up" => copy_bytes(alloc, 4_096, 0, times),
        "memory_up_by_one" => copy_bytes(alloc, 1, 0, times),
        "memory_down" => copy_bytes(alloc, 0, 4_096, times),
        "memory_down_by_one" => copy_bytes(alloc, 0, 1, times),
        "memory_apart" => copy_bytes(alloc, 2 * MIB, 0, times),
        "memory_from" => copy_bytes_from(alloc, times),
        "memory_fill" => fill_bytes(alloc, times),
        "memory_grow" => grow_pages(alloc, times),
        "memory_new" => new_memories(alloc, times),
        "table_up" => copy_elements(alloc, 1_000, 0, times),
        "table_down" => copy_elements(alloc, 0, 1_000, times),
        "table_apart" => copy_elements(alloc, 200_000, 0, times),
        "table_fill" => fill_elements(alloc, times),
        _ => Ok(0),
    }
}

fn main(rt: HostRuntime) -> io::Result<()> {
    let words: Vec<String> = env::args(&rt)?.collect(rt.alloc())?;
    let kind = match words.get(1) {
        Some(word) => word.as_str(),
        None => "",
    };
    let times = match words.get(2) {
        Some(word) => word.as_str().parse::<u32>().unwrap_or(0),
        None => 0,
    };
    match work(rt.alloc(), kind, times) {
        Ok(done) => println!(rt; "{done}")?,
        Err(_) => println!(rt; "out of memory")?,
    }
    Ok(())
}
