use crate::tests::{check_same, validated};
use wasm_module::{ModuleFault, Part, Place, Rule};

/// Modules that are read and break a rule, with its first place.
const BROKEN: [(&str, Rule, Part); 4] = [
    (
        r#"{"types":[{}],"modules":[{"functions":[{"type":0,"code":[["drop"]]}]}]}"#,
        Rule::Body,
        Part::Functions,
    ),
    (
        r#"{"types":[{}],"modules":[{"functions":[{"type":1,"code":[]}]}]}"#,
        Rule::Index,
        Part::Functions,
    ),
    (
        r#"{"types":[{}],"modules":[{"functions":[{"type":0,"code":[["memory.init",0,0]]}],"memories":[{"min":0}]}]}"#,
        Rule::Body,
        Part::Functions,
    ),
    (r#"{"modules":[{"start":0}]}"#, Rule::Index, Part::Start),
];

#[test]
fn broken_rules_are_the_validators(rt: HostRuntime) {
    for (text, rule, part) in BROKEN {
        let place = Place { part, item: 0 };
        let wanted = ModuleFault::InvalidModule { rule, place };
        let fault = validated(&rt, rt.alloc(), text).err();
        check_same(&rt, fault == Some(wanted), true, text);
    }
}
