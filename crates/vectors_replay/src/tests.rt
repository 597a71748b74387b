ghost use Rattle.wasm_replay.specs.Calls.{IsFresh};

mod commands;
mod counter;
mod records;
mod replays;
mod returns;

use std::alloc::Global as Heap;
use std::fmt::Debug;
use std::process::Abort;
use wasm_embedding::{ENGINE, module_from_json};
use wasm_meter::{Answers, EpochAnswer, GrowthAnswer, ListedData, ListedEpochs};
use wasm_module::Module;
use wasm_replay::Recorded;
use wasm_store::{Engine, Store};
use wasm_values::StoreIds;

/// What a test lacks where it can't be done.
const MEMORY: &str = "memory for the test";

/// It calls a function of the host with a number.
const HELLO: &str =
    r#"{"types":[{"params":["i32"]},{}],"module":{"imports":[{"module":"host","name":"host_func","func":0}],"functions":[{"type":1,"code":[["i32.const",3],["call",0]]}],"exports":[{"name":"hello","func":1}]}}"#;

/// A store whose host data are recorded.
type RecordedStore = Store<Recorded<ListedData>>;

/// Host data whose limiter gives these answers, and yes past them.
fn host_data(rt: &impl Abort, alloc: Heap, growths: &[GrowthAnswer]) -> ListedData {
    ListedData {
        instances: 100,
        tables: 100,
        memories: 100,
        growths: Answers::new(Vec::from_slice(alloc, growths).expect(rt, MEMORY)),
        denials: 0,
        limiter_faults: 0,
        hooks: Answers::new(Vec::new(alloc)),
        hook_faults: 0,
        behaviours: Answers::new(Vec::new(alloc)),
        behaviour_faults: 0,
    }
}

fn new_engine(rt: &impl Abort, reads_epochs: bool) -> Engine {
    Engine::new(ENGINE, false, reads_epochs, 1_024, 1_000_000).expect(rt, "an engine")
}

/// A store with its limiter on, and room for so many growths.
fn recorded_store(
    rt: &impl Abort,
    alloc: Heap,
    reads_epochs: bool,
    growths: &[GrowthAnswer],
    room: usize,
) -> RecordedStore
    ensures { IsFresh result }
{
    let Ok(data) = Recorded::new(alloc, host_data(rt, alloc, growths), room) else {
        panic!(rt; "{MEMORY}");
    };
    match Store::try_new(
        alloc,
        &mut StoreIds::new(),
        new_engine(rt, reads_epochs),
        data,
    ) {
        Ok(mut store) => {
            store.limiter();
            store
        }
        Err(_) => panic!(rt; "there is no id"),
    }
}

fn epochs_of(rt: &impl Abort, alloc: Heap, answers: &[EpochAnswer]) -> ListedEpochs {
    ListedEpochs {
        answers: Answers::new(Vec::from_slice(alloc, answers).expect(rt, MEMORY)),
        last: 0,
        faults: 0,
    }
}

fn valid(rt: &impl Abort, alloc: Heap, text: &str) -> Module {
    match module_from_json(alloc, 0, text) {
        Ok(module) => module,
        Err(_) => panic!(rt; "a module that is not valid"),
    }
}

/// What was got is what was expected.
fn check_same<A: PartialEq + Debug + Drop>(rt: &impl Abort, got: A, expected: A) {
    assert_eq!(rt; got, expected);
}
