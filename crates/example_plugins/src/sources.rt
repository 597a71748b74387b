use std::alloc::Global as Heap;
use std::rt::Files;
use std::{fs, io};
use wasm_embedding::{ENGINE, Module, module_from_bytes};

/// The guests' modules. Their sources in the text format stand beside their bytes.
#[derive(Drop)]
pub(crate) struct Sources {
    pub(crate) tally: Module,
    pub(crate) notes: Module,
    pub(crate) prowler: Module,
    pub(crate) smuggler: Module,
}

/// The module that a file's bytes spell, where they spell one and it is valid.
fn read_source(rt: &(impl Files + Alloc), alloc: Heap, file: &str) -> io::Result<Option<Module>> {
    let bytes = fs::read(rt, file)?;
    Ok(module_from_bytes(alloc, ENGINE, 0, bytes.as_slice()).ok())
}

pub(crate) fn read_sources(rt: &(impl Files + Alloc), alloc: Heap) -> io::Result<Option<Sources>> {
    let tally = read_source(rt, alloc, "tally.wasm")?;
    let notes = read_source(rt, alloc, "notes.wasm")?;
    let prowler = read_source(rt, alloc, "prowler.wasm")?;
    let smuggler = read_source(rt, alloc, "smuggler.wasm")?;
    match (tally, notes, prowler, smuggler) {
        (Some(tally), Some(notes), Some(prowler), Some(smuggler)) => Ok(Some(Sources {
            tally,
            notes,
            prowler,
            smuggler,
        })),
        _ => Ok(None),
    }
}
