//! Texts and bytes that are no module, each told by its own fault.
use crate::tests::check_same;
use std::alloc::Global as Heap;
use std::process::Abort;
use wasm_embedding::{BinaryFault, ENGINE, Fault, module_from_bytes, module_from_json};
use wasm_module::Rule;

/// The module of one function that gives 7, in the binary format, with the byte of its instruction left open.
fn giving_seven(opcode: u8) -> [u8; 34] {
    [
        0x00, 0x61, 0x73, 0x6d, 0x01, 0x00, 0x00, 0x00, 0x01, 0x05, 0x01, 0x60, 0x00, 0x01, 0x7f,
        0x03, 0x02, 0x01, 0x00, 0x07, 0x05, 0x01, 0x01, 0x66, 0x00, 0x00, 0x0a, 0x06, 0x01, 0x04,
        0x00, opcode, 0x07, 0x0b,
    ]
}

/// Why a text is no valid module.
fn fault_of_text(rt: &impl Abort, alloc: Heap, text: &str) -> Fault {
    match module_from_json(alloc, 0, text) {
        Ok(_) => panic!(rt; "a module"),
        Err(fault) => fault,
    }
}

/// Why bytes are no valid module, where they are none.
fn fault_of_bytes(alloc: Heap, bytes: &[u8]) -> Option<Fault> {
    module_from_bytes(alloc, ENGINE, 0, bytes).err()
}

#[test]
fn a_text_that_is_no_module_is_told_by_its_cause(rt: HostRuntime) {
    let alloc = rt.alloc();
    check_same(&rt, fault_of_text(&rt, alloc, "{"), Fault::NotJson);
    check_same(&rt, fault_of_text(&rt, alloc, "{}"), Fault::NotModule);
    check_same(
        &rt,
        fault_of_text(&rt, alloc, r#"{"module":7}"#),
        Fault::NotModule,
    );
    let ill_typed =
        r#"{"types":[{}],"module":{"functions":[{"type":0,"code":[["i32.const",1]]}]}}"#;
    match fault_of_text(&rt, alloc, ill_typed) {
        Fault::Invalid { rule, .. } => check_same(&rt, rule == Rule::Body, true),
        _ => panic!(rt; "another fault"),
    }
}

#[test]
fn bytes_that_are_no_module_are_told_by_their_fault(rt: HostRuntime) {
    let alloc = rt.alloc();
    check_same(&rt, fault_of_bytes(alloc, &giving_seven(0x41)), None);
    let none = Fault::Unreadable(BinaryFault::Malformed);
    check_same(&rt, fault_of_bytes(alloc, &[]), Some(none));
    let unknown = Fault::Unreadable(BinaryFault::Unsupported { at: 31, code: 28 });
    check_same(
        &rt,
        fault_of_bytes(alloc, &giving_seven(0x1c)),
        Some(unknown),
    );
}
