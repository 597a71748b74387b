//! A host of plugins: it loads four guests from bytes into one store. Two of them are honest; one tries every address
//! and takes all the memory it gets, and one would have its own function called by another guest. It prints what each
//! came to.
#![tactic(auto)]

mod board;
mod calls;
mod hostile;
mod sources;

use crate::board::{Board, Guests, Kept};
use crate::calls::{bytes_of, load, number_from};
use crate::hostile::{Prowled, Smuggled, prowl, smuggle};
use crate::sources::{Sources, read_sources};
use std::alloc::Global as Heap;
use std::io;
use wasm_embedding::{
    ENGINE, Engine, Extern, Func, FuncTyped, HostBody, PluginFault, Plugins, Pooled, Shown, Store,
    StoreIds, Val, Wrap,
};

/// A page of a memory, and how many pages all memories have together.
const PAGE: usize = 65_536;

const PAGES: usize = 8;

/// The guests, by their numbers: in the order in which they are loaded.
const TALLY: usize = 0;

const NOTES: usize = 1;

const PROWLER: usize = 2;

const SMUGGLER: usize = 3;

/// What the host saw.
#[derive(Debug, Drop)]
struct Seen {
    honest: Honest,
    prowled: Prowled,
    smuggled: Smuggled,
    behind: Honest,
    visits: u32,
}

/// What the honest guests answer, and the first bytes of their memories.
#[derive(Debug, Drop)]
struct Honest {
    sum: Result<Option<i32>, PluginFault>,
    checksum: Result<Option<i32>, PluginFault>,
    pages: Result<Option<i32>, PluginFault>,
    tally: Option<[u8; 4]>,
    notes: Option<[u8; 4]>,
}

/// Has the honest guests work: one adds to its sum, the other sums its text and asks for a page more.
fn work_honestly<H: HostBody<Kept>>(plugins: &mut Guests, host: &mut Shown<H>) -> Honest
    requires { H.ready host.old.inner }
    ensures { H.ready host.new.inner }
{
    Honest {
        sum: number_from(plugins, host, TALLY, "add", &[Val::I32(20)]),
        checksum: number_from(plugins, host, NOTES, "checksum", &[]),
        pages: number_from(plugins, host, NOTES, "grow", &[]),
        tally: bytes_of(plugins, TALLY),
        notes: bytes_of(plugins, NOTES),
    }
}

/// Has all guests work, the honest ones before and behind the hostile ones.
fn work<H: HostBody<Kept>>(plugins: &mut Guests, host: &mut Shown<H>) -> Seen
    requires { H.ready host.old.inner }
    ensures { H.ready host.new.inner }
{
    Seen {
        honest: work_honestly(plugins, host),
        prowled: prowl(plugins, host, PROWLER),
        smuggled: smuggle(plugins, host, SMUGGLER, TALLY),
        behind: work_honestly(plugins, host),
        visits: plugins.store().data().own.visits,
    }
}

/// Loads the guests over the one function of the host. Functions they may have in common, and nothing else.
fn load_all<H: HostBody<Kept>>(
    plugins: &mut Guests,
    host: &mut Shown<H>,
    sources: &Sources,
    exchange: Func,
) -> Result<(), PluginFault>
    requires { H.ready host.old.inner }
    ensures { H.ready host.new.inner }
{
    let imports = [Extern::Func(exchange)];
    load(plugins, host, &sources.tally, &imports)?;
    load(plugins, host, &sources.notes, &[])?;
    load(plugins, host, &sources.prowler, &[])?;
    load(plugins, host, &sources.smuggler, &imports)?;
    Ok(())
}

/// The host's one body: a board on which a guest leaves a function and finds the one that was left before. It is
/// careless, and `Shown` keeps it from handing out to one guest what another left.
fn see(plugins: &mut Guests, sources: &Sources, exchange: Func) -> Result<Seen, PluginFault> {
    let mut host = Shown::new(Wrap::new(|kept: &mut Kept, given: (Option<Func>,)| -> Option<Func> {
        let found = kept.own.left;
        kept.own.left = given.0;
        kept.own.visits = kept.own.visits.saturating_add(1);
        found
    }));
    load_all(plugins, &mut host, sources, exchange)?;
    Ok(work(plugins, &mut host))
}

/// A store without objects, of an engine that consumes fuel, whose memories have so many pages together.
fn new_store(alloc: Heap) -> Store<Kept> {
    let engine = Engine::new(ENGINE, true, false, 1_024, 1_000_000).unwrap();
    let host_data = Pooled::new(Board::new(), PAGES * PAGE);
    let Ok(mut store) = Store::try_new(alloc, &mut StoreIds::new(), engine, host_data) else {
        unreachable!()
    };
    store.limiter();
    store
}

/// What the host makes itself, it makes before the guests: behind that nobody but they and its body may change the
/// store.
fn run(alloc: Heap, sources: &Sources) -> Result<Seen, PluginFault> {
    let mut store = new_store(alloc);
    let exchange = match Func::try_wrap::<(Option<Func>,), Option<Func>>(&mut store, 0) {
        Ok(exchange) => exchange,
        Err(why) => {
            store.into_data();
            return Err(PluginFault::Refused(why));
        }
    };
    let mut plugins = Plugins::new(alloc, store);
    let seen = see(&mut plugins, sources, exchange);
    plugins.into_store().into_data();
    seen
}

fn show(rt: &impl Print, seen: &Seen) -> io::Result<()> {
    println!(rt; "honest guests: {:?}", seen.honest)?;
    println!(rt; "the prowler: {:?}", seen.prowled)?;
    println!(rt; "the smuggler: {:?}", seen.smuggled)?;
    println!(rt; "honest guests: {:?}", seen.behind)?;
    println!(rt; "visits to the board: {}", seen.visits)
}

fn main(rt: HostRuntime) -> io::Result<()> {
    let alloc = rt.alloc();
    let Some(sources) = read_sources(&rt, alloc)? else {
        return println!(rt; "the bytes of a guest are no module");
    };
    match run(alloc, &sources) {
        Ok(seen) => show(&rt, &seen),
        Err(fault) => println!(rt; "refused: {fault:?}"),
    }
}
