//! Modules in sessions that break a rule: which rule is said to be broken, and where.

use crate::sessions::check_invalid;
use std::alloc::Global;
use std::process::Abort;
use wasm_module::{Part, Rule};

/// A session of two modules, of which the first is empty and this is the second.
fn script(rt: &impl Abort, alloc: Global, second: &str) -> String {
    format!(in alloc;
        r#"{{"types":[{{}},{{"params":["i32"],"results":["i32"]}}],"modules":[{{}},{second}],"commands":[{{"do":"memory_new","min":1}}]}}"#
    ).expect(rt, "memory for a script")
}

/// Modules, each with the first rule that it breaks, and where.
const BROKEN: [(&str, Rule, Part, u32); 31] = [
    // A list of each kind that names what is not there.
    (
        r#"{"functions":[{"type":0},{"type":2}]}"#,
        Rule::Index,
        Part::Functions,
        1,
    ),
    (
        r#"{"functions":[{"type":0,"code":[["unreachable"],["block",7,[]]]}]}"#,
        Rule::Index,
        Part::Functions,
        0,
    ),
    (
        r#"{"functions":[{"type":0,"code":[["loop",0,[["i32.const",0],["if",2,[],[]]]]]}]}"#,
        Rule::Index,
        Part::Functions,
        0,
    ),
    (r#"{"tags":[1,0,2]}"#, Rule::Index, Part::Tags, 2),
    (
        r#"{"exports":[{"name":"a","func":0}]}"#,
        Rule::Index,
        Part::Exports,
        0,
    ),
    (
        r#"{"memories":[{"min":0}],"exports":[{"name":"a","memory":0},{"name":"b","memory":1}]}"#,
        Rule::Index,
        Part::Exports,
        1,
    ),
    (
        r#"{"exports":[{"name":"a","table":0}]}"#,
        Rule::Index,
        Part::Exports,
        0,
    ),
    (
        r#"{"exports":[{"name":"a","global":4294967295}]}"#,
        Rule::Index,
        Part::Exports,
        0,
    ),
    (
        r#"{"tags":[0],"exports":[{"name":"a","tag":1}]}"#,
        Rule::Index,
        Part::Exports,
        0,
    ),
    // A local without a value to begin with.
    (
        r#"{"functions":[{"type":0,"locals":["funcref",{"ref":0}]},{"type":0,"locals":[{"ref":0,"null":false}]}]}"#,
        Rule::Local,
        Part::Functions,
        1,
    ),
    // Start values.
    (
        r#"{"tables":[{"ref":"funcref","min":0},{"ref":{"ref":0,"null":false},"min":0}]}"#,
        Rule::Const,
        Part::Tables,
        1,
    ),
    (
        r#"{"tables":[{"ref":"funcref","min":1,"init":["ref.null","extern"]}]}"#,
        Rule::Const,
        Part::Tables,
        0,
    ),
    (
        r#"{"functions":[{"type":0}],"tables":[{"ref":{"ref":1},"min":1,"init":["ref.func",0]}]}"#,
        Rule::Const,
        Part::Tables,
        0,
    ),
    (
        r#"{"tables":[{"ref":"funcref","min":1,"init":["ref.func",0]}]}"#,
        Rule::Const,
        Part::Tables,
        0,
    ),
    (
        r#"{"globals":[{"val":"funcref","init":["ref.null","func"]}],"tables":[{"ref":"funcref","min":1,"init":["global.get",0]}]}"#,
        Rule::Const,
        Part::Tables,
        0,
    ),
    (
        r#"{"globals":[{"val":"i32","init":["i32.const",0]},{"val":"i32","init":["i64.const",0]}]}"#,
        Rule::Const,
        Part::Globals,
        1,
    ),
    (
        r#"{"globals":[{"val":"i32","init":["global.get",0]}]}"#,
        Rule::Const,
        Part::Globals,
        0,
    ),
    (
        r#"{"globals":[{"val":"i32","init":["global.get",1]},{"val":"i32","init":["i32.const",0]}]}"#,
        Rule::Const,
        Part::Globals,
        0,
    ),
    (
        r#"{"globals":[{"val":"i32","mut":true,"init":["i32.const",0]},{"val":"i32","init":["global.get",0]}]}"#,
        Rule::Const,
        Part::Globals,
        1,
    ),
    // Two exports of one name.
    (
        r#"{"functions":[{"type":0}],"tags":[0],"exports":[{"name":"a","func":0},{"name":"b","func":0},{"name":"a","tag":0}]}"#,
        Rule::ExportName,
        Part::Exports,
        2,
    ),
    // Code that is not typed.
    (
        r#"{"functions":[{"type":0,"code":[["drop"]]}]}"#,
        Rule::Body,
        Part::Functions,
        0,
    ),
    (
        r#"{"functions":[{"type":0},{"type":1},{"type":1}]}"#,
        Rule::Body,
        Part::Functions,
        1,
    ),
    (
        r#"{"functions":[{"type":0,"code":[["i32.const",0]]}]}"#,
        Rule::Body,
        Part::Functions,
        0,
    ),
    (
        r#"{"functions":[{"type":0,"code":[["br",1]]}]}"#,
        Rule::Body,
        Part::Functions,
        0,
    ),
    (
        r#"{"globals":[{"val":"i32","init":["i32.const",0]}],"functions":[{"type":0,"code":[["i32.const",0],["global.set",0]]}]}"#,
        Rule::Body,
        Part::Functions,
        0,
    ),
    // Of several rules the first one, then the first part, then the first item.
    (
        r#"{"functions":[{"type":1}],"exports":[{"name":"a","func":0},{"name":"a","func":0}]}"#,
        Rule::ExportName,
        Part::Exports,
        1,
    ),
    (
        r#"{"functions":[{"type":1},{"type":0,"locals":[{"ref":"extern","null":false}]}],"globals":[{"val":"i32","init":["i64.const",0]}]}"#,
        Rule::Local,
        Part::Functions,
        1,
    ),
    (
        r#"{"functions":[{"type":0},{"type":9}],"tags":[9],"exports":[{"name":"a","func":9}]}"#,
        Rule::Index,
        Part::Functions,
        1,
    ),
    (
        r#"{"functions":[{"type":1}],"tags":[0,9],"exports":[{"name":"a","func":9}]}"#,
        Rule::Index,
        Part::Tags,
        1,
    ),
    (
        r#"{"tables":[{"ref":"externref","min":0,"init":["ref.null","any"]}],"globals":[{"val":"i32","init":["i64.const",0]}]}"#,
        Rule::Const,
        Part::Tables,
        0,
    ),
    (
        r#"{"globals":[{"val":"i64","init":["i32.const",0]},{"val":"i32","init":["i64.const",0]}],"exports":[{"name":"a","global":0},{"name":"a","global":0}]}"#,
        Rule::Const,
        Part::Globals,
        0,
    ),
];

#[test]
fn the_first_broken_rule_of_the_first_module_is_said(rt: HostRuntime) {
    for (second, rule, part, item) in BROKEN {
        let text = script(&rt, rt.alloc(), second);
        check_invalid(&rt, rt.alloc(), text.as_str(), 1, (rule, part, item));
    }
    let text =
        r#"{"types":[{}],"modules":[{},{},{"tags":[1]},{"tags":[0]},{"functions":[{"type":7}]}],"commands":[]}"#;
    check_invalid(&rt, rt.alloc(), text, 2, (Rule::Index, Part::Tags, 0));
}
