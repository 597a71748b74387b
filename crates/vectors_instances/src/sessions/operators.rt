//! The operators on integers in sessions, as node's WebAssembly has them; written by this crate's `operators.js`.

use crate::sessions::check_lines;

/// Beside each session stand its lines: of the operators whose result is always there, of divisions, and of those on one
/// operand, for `i32` and then for `i64`.
const ROWS: [(&str, &str); 6] = [
    (
        r#"{"types":[
{"params":["i32","i32"],"results":[
"i32","i32","i32","i32","i32","i32","i32","i32","i32","i32","i32","i32","i32","i32","i32","i32",
"i32","i32","i32","i32","i32"]}],
"modules":[{"functions":[
{"type":0,"code":[
["local.get",0],["local.get",1],["i32.add"],["local.get",0],["local.get",1],["i32.sub"],
["local.get",0],["local.get",1],["i32.mul"],["local.get",0],["local.get",1],["i32.and"],
["local.get",0],["local.get",1],["i32.or"],["local.get",0],["local.get",1],["i32.xor"],
["local.get",0],["local.get",1],["i32.shl"],["local.get",0],["local.get",1],["i32.shr_s"],
["local.get",0],["local.get",1],["i32.shr_u"],["local.get",0],["local.get",1],["i32.rotl"],
["local.get",0],["local.get",1],["i32.rotr"],["local.get",0],["local.get",1],["i32.eq"],
["local.get",0],["local.get",1],["i32.ne"],["local.get",0],["local.get",1],["i32.lt_s"],
["local.get",0],["local.get",1],["i32.lt_u"],["local.get",0],["local.get",1],["i32.gt_s"],
["local.get",0],["local.get",1],["i32.gt_u"],["local.get",0],["local.get",1],["i32.le_s"],
["local.get",0],["local.get",1],["i32.le_u"],["local.get",0],["local.get",1],["i32.ge_s"],
["local.get",0],["local.get",1],["i32.ge_u"]]}],
"exports":[
{"name":"a","func":0}]}],
"commands":[
{"do":"instantiate","module":0},{"do":"get_export","instance":0,"name":"a"},
{"do":"call","func":1,"args":[{"i32":0},{"i32":1}]},
{"do":"call","func":1,"args":[{"i32":-1},{"i32":-1}]},
{"do":"call","func":1,"args":[{"i32":-1},{"i32":1}]},
{"do":"call","func":1,"args":[{"i32":-2147483648},{"i32":-1}]},
{"do":"call","func":1,"args":[{"i32":-1},{"i32":-2147483648}]},
{"do":"call","func":1,"args":[{"i32":-2147483648},{"i32":2147483647}]},
{"do":"call","func":1,"args":[{"i32":2147483647},{"i32":1}]},
{"do":"call","func":1,"args":[{"i32":-1514880046},{"i32":31}]},
{"do":"call","func":1,"args":[{"i32":-1514880046},{"i32":32}]},
{"do":"call","func":1,"args":[{"i32":-1514880046},{"i32":33}]}]}"#,
        "ok instance 0
ok func 0
ok values i32:1 i32:-1 i32:0 i32:0 i32:1 i32:1 i32:0 i32:0 i32:0 i32:0 i32:0 i32:0 i32:1 i32:1 i32:1 i32:0 i32:0 i32:1 i32:1 i32:0 i32:0
ok values i32:-2 i32:0 i32:1 i32:-1 i32:-1 i32:0 i32:-2147483648 i32:-1 i32:1 i32:-1 i32:-1 i32:1 i32:0 i32:0 i32:0 i32:0 i32:0 i32:1 i32:1 i32:1 i32:1
ok values i32:0 i32:-2 i32:-1 i32:1 i32:-1 i32:-2 i32:-2 i32:-1 i32:2147483647 i32:-1 i32:-1 i32:0 i32:1 i32:1 i32:0 i32:0 i32:1 i32:1 i32:0 i32:0 i32:1
ok values i32:2147483647 i32:-2147483647 i32:-2147483648 i32:-2147483648 i32:-1 i32:2147483647 i32:0 i32:-1 i32:1 i32:1073741824 i32:1 i32:0 i32:1 i32:1 i32:1 i32:0 i32:0 i32:1 i32:1 i32:0 i32:0
ok values i32:2147483647 i32:2147483647 i32:-2147483648 i32:-2147483648 i32:-1 i32:2147483647 i32:-1 i32:-1 i32:-1 i32:-1 i32:-1 i32:0 i32:1 i32:0 i32:0 i32:1 i32:1 i32:0 i32:0 i32:1 i32:1
ok values i32:-1 i32:1 i32:-2147483648 i32:0 i32:-1 i32:-1 i32:0 i32:-1 i32:1 i32:1073741824 i32:1 i32:0 i32:1 i32:1 i32:0 i32:0 i32:1 i32:1 i32:0 i32:0 i32:1
ok values i32:-2147483648 i32:2147483646 i32:2147483647 i32:1 i32:2147483647 i32:2147483646 i32:-2 i32:1073741823 i32:1073741823 i32:-2 i32:-1073741825 i32:0 i32:1 i32:0 i32:0 i32:1 i32:1 i32:0 i32:0 i32:1 i32:1
ok values i32:-1514880015 i32:-1514880077 i32:283358830 i32:18 i32:-1514880033 i32:-1514880051 i32:0 i32:-1 i32:1 i32:1390043625 i32:1265207205 i32:0 i32:1 i32:1 i32:0 i32:0 i32:1 i32:1 i32:0 i32:0 i32:1
ok values i32:-1514880014 i32:-1514880078 i32:-1231521216 i32:0 i32:-1514880014 i32:-1514880014 i32:-1514880046 i32:-1514880046 i32:-1514880046 i32:-1514880046 i32:-1514880046 i32:0 i32:1 i32:1 i32:0 i32:0 i32:1 i32:1 i32:0 i32:0 i32:1
ok values i32:-1514880013 i32:-1514880079 i32:1548566034 i32:0 i32:-1514880013 i32:-1514880013 i32:1265207204 i32:-757440023 i32:1390043625 i32:1265207205 i32:1390043625 i32:0 i32:1 i32:1 i32:0 i32:0 i32:1 i32:1 i32:0 i32:0 i32:1
",
    ),
    (
        r#"{"types":[
{"params":["i32","i32"],"results":[
"i32"]},
{"params":["i32","i32"],"results":[
"i32"]},
{"params":["i32","i32"],"results":[
"i32"]},
{"params":["i32","i32"],"results":[
"i32"]}],
"modules":[{"functions":[
{"type":0,"code":[
["local.get",0],["local.get",1],["i32.div_s"]]},
{"type":1,"code":[
["local.get",0],["local.get",1],["i32.div_u"]]},
{"type":2,"code":[
["local.get",0],["local.get",1],["i32.rem_s"]]},
{"type":3,"code":[
["local.get",0],["local.get",1],["i32.rem_u"]]}],
"exports":[
{"name":"a","func":0},{"name":"b","func":1},{"name":"c","func":2},{"name":"d","func":3}]}],
"commands":[
{"do":"instantiate","module":0},{"do":"get_export","instance":0,"name":"a"},
{"do":"get_export","instance":0,"name":"b"},{"do":"get_export","instance":0,"name":"c"},
{"do":"get_export","instance":0,"name":"d"},{"do":"call","func":1,"args":[{"i32":7},{"i32":-2}]},
{"do":"call","func":1,"args":[{"i32":-7},{"i32":2}]},
{"do":"call","func":1,"args":[{"i32":-7},{"i32":-2}]},
{"do":"call","func":1,"args":[{"i32":1},{"i32":0}]},
{"do":"call","func":1,"args":[{"i32":0},{"i32":0}]},
{"do":"call","func":1,"args":[{"i32":-2147483648},{"i32":-1}]},
{"do":"call","func":1,"args":[{"i32":-2147483648},{"i32":1}]},
{"do":"call","func":1,"args":[{"i32":1},{"i32":-2147483648}]},
{"do":"call","func":1,"args":[{"i32":2147483647},{"i32":-2147483648}]},
{"do":"call","func":1,"args":[{"i32":-1514880046},{"i32":10}]},
{"do":"call","func":2,"args":[{"i32":7},{"i32":-2}]},
{"do":"call","func":2,"args":[{"i32":-7},{"i32":2}]},
{"do":"call","func":2,"args":[{"i32":-7},{"i32":-2}]},
{"do":"call","func":2,"args":[{"i32":1},{"i32":0}]},
{"do":"call","func":2,"args":[{"i32":0},{"i32":0}]},
{"do":"call","func":2,"args":[{"i32":-2147483648},{"i32":-1}]},
{"do":"call","func":2,"args":[{"i32":-2147483648},{"i32":1}]},
{"do":"call","func":2,"args":[{"i32":1},{"i32":-2147483648}]},
{"do":"call","func":2,"args":[{"i32":2147483647},{"i32":-2147483648}]},
{"do":"call","func":2,"args":[{"i32":-1514880046},{"i32":10}]},
{"do":"call","func":3,"args":[{"i32":7},{"i32":-2}]},
{"do":"call","func":3,"args":[{"i32":-7},{"i32":2}]},
{"do":"call","func":3,"args":[{"i32":-7},{"i32":-2}]},
{"do":"call","func":3,"args":[{"i32":1},{"i32":0}]},
{"do":"call","func":3,"args":[{"i32":0},{"i32":0}]},
{"do":"call","func":3,"args":[{"i32":-2147483648},{"i32":-1}]},
{"do":"call","func":3,"args":[{"i32":-2147483648},{"i32":1}]},
{"do":"call","func":3,"args":[{"i32":1},{"i32":-2147483648}]},
{"do":"call","func":3,"args":[{"i32":2147483647},{"i32":-2147483648}]},
{"do":"call","func":3,"args":[{"i32":-1514880046},{"i32":10}]},
{"do":"call","func":4,"args":[{"i32":7},{"i32":-2}]},
{"do":"call","func":4,"args":[{"i32":-7},{"i32":2}]},
{"do":"call","func":4,"args":[{"i32":-7},{"i32":-2}]},
{"do":"call","func":4,"args":[{"i32":1},{"i32":0}]},
{"do":"call","func":4,"args":[{"i32":0},{"i32":0}]},
{"do":"call","func":4,"args":[{"i32":-2147483648},{"i32":-1}]},
{"do":"call","func":4,"args":[{"i32":-2147483648},{"i32":1}]},
{"do":"call","func":4,"args":[{"i32":1},{"i32":-2147483648}]},
{"do":"call","func":4,"args":[{"i32":2147483647},{"i32":-2147483648}]},
{"do":"call","func":4,"args":[{"i32":-1514880046},{"i32":10}]}]}"#,
        "ok instance 0
ok func 0
ok func 1
ok func 2
ok func 3
ok values i32:-3
ok values i32:-3
ok values i32:3
trap IntegerDivisionByZero
trap IntegerDivisionByZero
trap IntegerOverflow
ok values i32:-2147483648
ok values i32:0
ok values i32:0
ok values i32:-151488004
ok values i32:0
ok values i32:2147483644
ok values i32:0
trap IntegerDivisionByZero
trap IntegerDivisionByZero
ok values i32:0
ok values i32:-2147483648
ok values i32:0
ok values i32:0
ok values i32:278008725
ok values i32:1
ok values i32:-1
ok values i32:-1
trap IntegerDivisionByZero
trap IntegerDivisionByZero
ok values i32:0
ok values i32:0
ok values i32:1
ok values i32:2147483647
ok values i32:-6
ok values i32:7
ok values i32:1
ok values i32:-7
trap IntegerDivisionByZero
trap IntegerDivisionByZero
ok values i32:-2147483648
ok values i32:0
ok values i32:1
ok values i32:2147483647
ok values i32:0
",
    ),
    (
        r#"{"types":[
{"params":["i32"],"results":[
"i32","i32","i32","i32","i32","i32","i64","i64"]}],
"modules":[{"functions":[
{"type":0,"code":[
["local.get",0],["i32.clz"],["local.get",0],["i32.ctz"],["local.get",0],["i32.popcnt"],
["local.get",0],["i32.eqz"],["local.get",0],["i32.extend8_s"],["local.get",0],["i32.extend16_s"],
["local.get",0],["i64.extend_i32_s"],["local.get",0],["i64.extend_i32_u"]]}],
"exports":[
{"name":"a","func":0}]}],
"commands":[
{"do":"instantiate","module":0},{"do":"get_export","instance":0,"name":"a"},
{"do":"call","func":1,"args":[{"i32":0}]},{"do":"call","func":1,"args":[{"i32":1}]},
{"do":"call","func":1,"args":[{"i32":-1}]},{"do":"call","func":1,"args":[{"i32":-2147483648}]},
{"do":"call","func":1,"args":[{"i32":2147483647}]},{"do":"call","func":1,"args":[{"i32":128}]},
{"do":"call","func":1,"args":[{"i32":-129}]},{"do":"call","func":1,"args":[{"i32":32768}]},
{"do":"call","func":1,"args":[{"i32":-32769}]},{"do":"call","func":1,"args":[{"i32":65536}]}]}"#,
        "ok instance 0
ok func 0
ok values i32:32 i32:32 i32:0 i32:1 i32:0 i32:0 i64:0 i64:0
ok values i32:31 i32:0 i32:1 i32:0 i32:1 i32:1 i64:1 i64:1
ok values i32:0 i32:0 i32:32 i32:0 i32:-1 i32:-1 i64:-1 i64:4294967295
ok values i32:0 i32:31 i32:1 i32:0 i32:0 i32:0 i64:-2147483648 i64:2147483648
ok values i32:1 i32:0 i32:31 i32:0 i32:-1 i32:-1 i64:2147483647 i64:2147483647
ok values i32:24 i32:7 i32:1 i32:0 i32:-128 i32:128 i64:128 i64:128
ok values i32:0 i32:0 i32:31 i32:0 i32:127 i32:-129 i64:-129 i64:4294967167
ok values i32:16 i32:15 i32:1 i32:0 i32:0 i32:-32768 i64:32768 i64:32768
ok values i32:0 i32:0 i32:31 i32:0 i32:-1 i32:32767 i64:-32769 i64:4294934527
ok values i32:15 i32:16 i32:1 i32:0 i32:0 i32:0 i64:65536 i64:65536
",
    ),
    (
        r#"{"types":[
{"params":["i64","i64"],"results":[
"i64","i64","i64","i64","i64","i64","i64","i64","i64","i64","i64","i32","i32","i32","i32","i32",
"i32","i32","i32","i32","i32"]}],
"modules":[{"functions":[
{"type":0,"code":[
["local.get",0],["local.get",1],["i64.add"],["local.get",0],["local.get",1],["i64.sub"],
["local.get",0],["local.get",1],["i64.mul"],["local.get",0],["local.get",1],["i64.and"],
["local.get",0],["local.get",1],["i64.or"],["local.get",0],["local.get",1],["i64.xor"],
["local.get",0],["local.get",1],["i64.shl"],["local.get",0],["local.get",1],["i64.shr_s"],
["local.get",0],["local.get",1],["i64.shr_u"],["local.get",0],["local.get",1],["i64.rotl"],
["local.get",0],["local.get",1],["i64.rotr"],["local.get",0],["local.get",1],["i64.eq"],
["local.get",0],["local.get",1],["i64.ne"],["local.get",0],["local.get",1],["i64.lt_s"],
["local.get",0],["local.get",1],["i64.lt_u"],["local.get",0],["local.get",1],["i64.gt_s"],
["local.get",0],["local.get",1],["i64.gt_u"],["local.get",0],["local.get",1],["i64.le_s"],
["local.get",0],["local.get",1],["i64.le_u"],["local.get",0],["local.get",1],["i64.ge_s"],
["local.get",0],["local.get",1],["i64.ge_u"]]}],
"exports":[
{"name":"a","func":0}]}],
"commands":[
{"do":"instantiate","module":0},{"do":"get_export","instance":0,"name":"a"},
{"do":"call","func":1,"args":[{"i64":0},{"i64":1}]},
{"do":"call","func":1,"args":[{"i64":-1},{"i64":-1}]},
{"do":"call","func":1,"args":[{"i64":-1},{"i64":1}]},
{"do":"call","func":1,"args":[{"i64":-9223372036854775808},{"i64":-1}]},
{"do":"call","func":1,"args":[{"i64":-1},{"i64":-9223372036854775808}]},
{"do":"call","func":1,"args":[{"i64":-9223372036854775808},{"i64":9223372036854775807}]},
{"do":"call","func":1,"args":[{"i64":9223372036854775807},{"i64":1}]},
{"do":"call","func":1,"args":[{"i64":-6506310344268541154},{"i64":63}]},
{"do":"call","func":1,"args":[{"i64":-6506310344268541154},{"i64":64}]},
{"do":"call","func":1,"args":[{"i64":-6506310344268541154},{"i64":65}]}]}"#,
        "ok instance 0
ok func 0
ok values i64:1 i64:-1 i64:0 i64:0 i64:1 i64:1 i64:0 i64:0 i64:0 i64:0 i64:0 i32:0 i32:1 i32:1 i32:1 i32:0 i32:0 i32:1 i32:1 i32:0 i32:0
ok values i64:-2 i64:0 i64:1 i64:-1 i64:-1 i64:0 i64:-9223372036854775808 i64:-1 i64:1 i64:-1 i64:-1 i32:1 i32:0 i32:0 i32:0 i32:0 i32:0 i32:1 i32:1 i32:1 i32:1
ok values i64:0 i64:-2 i64:-1 i64:1 i64:-1 i64:-2 i64:-2 i64:-1 i64:9223372036854775807 i64:-1 i64:-1 i32:0 i32:1 i32:1 i32:0 i32:0 i32:1 i32:1 i32:0 i32:0 i32:1
ok values i64:9223372036854775807 i64:-9223372036854775807 i64:-9223372036854775808 i64:-9223372036854775808 i64:-1 i64:9223372036854775807 i64:0 i64:-1 i64:1 i64:4611686018427387904 i64:1 i32:0 i32:1 i32:1 i32:1 i32:0 i32:0 i32:1 i32:1 i32:0 i32:0
ok values i64:9223372036854775807 i64:9223372036854775807 i64:-9223372036854775808 i64:-9223372036854775808 i64:-1 i64:9223372036854775807 i64:-1 i64:-1 i64:-1 i64:-1 i64:-1 i32:0 i32:1 i32:0 i32:0 i32:1 i32:1 i32:0 i32:0 i32:1 i32:1
ok values i64:-1 i64:1 i64:-9223372036854775808 i64:0 i64:-1 i64:-1 i64:0 i64:-1 i64:1 i64:4611686018427387904 i64:1 i32:0 i32:1 i32:1 i32:0 i32:0 i32:1 i32:1 i32:0 i32:0 i32:1
ok values i64:-9223372036854775808 i64:9223372036854775806 i64:9223372036854775807 i64:1 i64:9223372036854775807 i64:9223372036854775806 i64:-2 i64:4611686018427387903 i64:4611686018427387903 i64:-2 i64:-4611686018427387905 i32:0 i32:1 i32:0 i32:0 i32:1 i32:1 i32:0 i32:0 i32:1 i32:1
ok values i64:-6506310344268541091 i64:-6506310344268541217 i64:-4069182067307957150 i64:30 i64:-6506310344268541121 i64:-6506310344268541151 i64:0 i64:-1 i64:1 i64:5970216864720505231 i64:5434123385172469309 i32:0 i32:1 i32:1 i32:0 i32:0 i32:1 i32:1 i32:0 i32:0 i32:1
ok values i64:-6506310344268541090 i64:-6506310344268541218 i64:7871251662133053312 i64:0 i64:-6506310344268541090 i64:-6506310344268541090 i64:-6506310344268541154 i64:-6506310344268541154 i64:-6506310344268541154 i64:-6506310344268541154 i64:-6506310344268541154 i32:0 i32:1 i32:1 i32:0 i32:0 i32:1 i32:1 i32:0 i32:0 i32:1
ok values i64:-6506310344268541089 i64:-6506310344268541219 i64:1364941317864512158 i64:0 i64:-6506310344268541089 i64:-6506310344268541089 i64:5434123385172469308 i64:-3253155172134270577 i64:5970216864720505231 i64:5434123385172469309 i64:5970216864720505231 i32:0 i32:1 i32:1 i32:0 i32:0 i32:1 i32:1 i32:0 i32:0 i32:1
",
    ),
    (
        r#"{"types":[
{"params":["i64","i64"],"results":[
"i64"]},
{"params":["i64","i64"],"results":[
"i64"]},
{"params":["i64","i64"],"results":[
"i64"]},
{"params":["i64","i64"],"results":[
"i64"]}],
"modules":[{"functions":[
{"type":0,"code":[
["local.get",0],["local.get",1],["i64.div_s"]]},
{"type":1,"code":[
["local.get",0],["local.get",1],["i64.div_u"]]},
{"type":2,"code":[
["local.get",0],["local.get",1],["i64.rem_s"]]},
{"type":3,"code":[
["local.get",0],["local.get",1],["i64.rem_u"]]}],
"exports":[
{"name":"a","func":0},{"name":"b","func":1},{"name":"c","func":2},{"name":"d","func":3}]}],
"commands":[
{"do":"instantiate","module":0},{"do":"get_export","instance":0,"name":"a"},
{"do":"get_export","instance":0,"name":"b"},{"do":"get_export","instance":0,"name":"c"},
{"do":"get_export","instance":0,"name":"d"},{"do":"call","func":1,"args":[{"i64":7},{"i64":-2}]},
{"do":"call","func":1,"args":[{"i64":-7},{"i64":2}]},
{"do":"call","func":1,"args":[{"i64":-7},{"i64":-2}]},
{"do":"call","func":1,"args":[{"i64":1},{"i64":0}]},
{"do":"call","func":1,"args":[{"i64":0},{"i64":0}]},
{"do":"call","func":1,"args":[{"i64":-9223372036854775808},{"i64":-1}]},
{"do":"call","func":1,"args":[{"i64":-9223372036854775808},{"i64":1}]},
{"do":"call","func":1,"args":[{"i64":1},{"i64":-9223372036854775808}]},
{"do":"call","func":1,"args":[{"i64":9223372036854775807},{"i64":-9223372036854775808}]},
{"do":"call","func":1,"args":[{"i64":-6506310344268541154},{"i64":10}]},
{"do":"call","func":2,"args":[{"i64":7},{"i64":-2}]},
{"do":"call","func":2,"args":[{"i64":-7},{"i64":2}]},
{"do":"call","func":2,"args":[{"i64":-7},{"i64":-2}]},
{"do":"call","func":2,"args":[{"i64":1},{"i64":0}]},
{"do":"call","func":2,"args":[{"i64":0},{"i64":0}]},
{"do":"call","func":2,"args":[{"i64":-9223372036854775808},{"i64":-1}]},
{"do":"call","func":2,"args":[{"i64":-9223372036854775808},{"i64":1}]},
{"do":"call","func":2,"args":[{"i64":1},{"i64":-9223372036854775808}]},
{"do":"call","func":2,"args":[{"i64":9223372036854775807},{"i64":-9223372036854775808}]},
{"do":"call","func":2,"args":[{"i64":-6506310344268541154},{"i64":10}]},
{"do":"call","func":3,"args":[{"i64":7},{"i64":-2}]},
{"do":"call","func":3,"args":[{"i64":-7},{"i64":2}]},
{"do":"call","func":3,"args":[{"i64":-7},{"i64":-2}]},
{"do":"call","func":3,"args":[{"i64":1},{"i64":0}]},
{"do":"call","func":3,"args":[{"i64":0},{"i64":0}]},
{"do":"call","func":3,"args":[{"i64":-9223372036854775808},{"i64":-1}]},
{"do":"call","func":3,"args":[{"i64":-9223372036854775808},{"i64":1}]},
{"do":"call","func":3,"args":[{"i64":1},{"i64":-9223372036854775808}]},
{"do":"call","func":3,"args":[{"i64":9223372036854775807},{"i64":-9223372036854775808}]},
{"do":"call","func":3,"args":[{"i64":-6506310344268541154},{"i64":10}]},
{"do":"call","func":4,"args":[{"i64":7},{"i64":-2}]},
{"do":"call","func":4,"args":[{"i64":-7},{"i64":2}]},
{"do":"call","func":4,"args":[{"i64":-7},{"i64":-2}]},
{"do":"call","func":4,"args":[{"i64":1},{"i64":0}]},
{"do":"call","func":4,"args":[{"i64":0},{"i64":0}]},
{"do":"call","func":4,"args":[{"i64":-9223372036854775808},{"i64":-1}]},
{"do":"call","func":4,"args":[{"i64":-9223372036854775808},{"i64":1}]},
{"do":"call","func":4,"args":[{"i64":1},{"i64":-9223372036854775808}]},
{"do":"call","func":4,"args":[{"i64":9223372036854775807},{"i64":-9223372036854775808}]},
{"do":"call","func":4,"args":[{"i64":-6506310344268541154},{"i64":10}]}]}"#,
        "ok instance 0
ok func 0
ok func 1
ok func 2
ok func 3
ok values i64:-3
ok values i64:-3
ok values i64:3
trap IntegerDivisionByZero
trap IntegerDivisionByZero
trap IntegerOverflow
ok values i64:-9223372036854775808
ok values i64:0
ok values i64:0
ok values i64:-650631034426854115
ok values i64:0
ok values i64:9223372036854775804
ok values i64:0
trap IntegerDivisionByZero
trap IntegerDivisionByZero
ok values i64:0
ok values i64:-9223372036854775808
ok values i64:0
ok values i64:0
ok values i64:1194043372944101046
ok values i64:1
ok values i64:-1
ok values i64:-1
trap IntegerDivisionByZero
trap IntegerDivisionByZero
ok values i64:0
ok values i64:0
ok values i64:1
ok values i64:9223372036854775807
ok values i64:-4
ok values i64:7
ok values i64:1
ok values i64:-7
trap IntegerDivisionByZero
trap IntegerDivisionByZero
ok values i64:-9223372036854775808
ok values i64:0
ok values i64:1
ok values i64:9223372036854775807
ok values i64:2
",
    ),
    (
        r#"{"types":[
{"params":["i64"],"results":[
"i64","i64","i64","i32","i64","i64","i64","i32"]}],
"modules":[{"functions":[
{"type":0,"code":[
["local.get",0],["i64.clz"],["local.get",0],["i64.ctz"],["local.get",0],["i64.popcnt"],
["local.get",0],["i64.eqz"],["local.get",0],["i64.extend8_s"],["local.get",0],["i64.extend16_s"],
["local.get",0],["i64.extend32_s"],["local.get",0],["i32.wrap_i64"]]}],
"exports":[
{"name":"a","func":0}]}],
"commands":[
{"do":"instantiate","module":0},{"do":"get_export","instance":0,"name":"a"},
{"do":"call","func":1,"args":[{"i64":0}]},{"do":"call","func":1,"args":[{"i64":1}]},
{"do":"call","func":1,"args":[{"i64":-1}]},
{"do":"call","func":1,"args":[{"i64":-9223372036854775808}]},
{"do":"call","func":1,"args":[{"i64":9223372036854775807}]},
{"do":"call","func":1,"args":[{"i64":128}]},{"do":"call","func":1,"args":[{"i64":-129}]},
{"do":"call","func":1,"args":[{"i64":32768}]},{"do":"call","func":1,"args":[{"i64":-32769}]},
{"do":"call","func":1,"args":[{"i64":2147483648}]},
{"do":"call","func":1,"args":[{"i64":-2147483649}]},
{"do":"call","func":1,"args":[{"i64":4294967296}]}]}"#,
        "ok instance 0
ok func 0
ok values i64:64 i64:64 i64:0 i32:1 i64:0 i64:0 i64:0 i32:0
ok values i64:63 i64:0 i64:1 i32:0 i64:1 i64:1 i64:1 i32:1
ok values i64:0 i64:0 i64:64 i32:0 i64:-1 i64:-1 i64:-1 i32:-1
ok values i64:0 i64:63 i64:1 i32:0 i64:0 i64:0 i64:0 i32:0
ok values i64:1 i64:0 i64:63 i32:0 i64:-1 i64:-1 i64:-1 i32:-1
ok values i64:56 i64:7 i64:1 i32:0 i64:-128 i64:128 i64:128 i32:128
ok values i64:0 i64:0 i64:63 i32:0 i64:127 i64:-129 i64:-129 i32:-129
ok values i64:48 i64:15 i64:1 i32:0 i64:0 i64:-32768 i64:32768 i32:32768
ok values i64:0 i64:0 i64:63 i32:0 i64:-1 i64:32767 i64:-32769 i32:-32769
ok values i64:32 i64:31 i64:1 i32:0 i64:0 i64:0 i64:-2147483648 i32:-2147483648
ok values i64:0 i64:0 i64:63 i32:0 i64:-1 i64:-1 i64:2147483647 i32:2147483647
ok values i64:31 i64:32 i64:1 i32:0 i64:0 i64:0 i64:0 i32:0
",
    ),
];

#[test]
fn operators_give_what_another_engine_gives(rt: HostRuntime) {
    check_lines(&rt, rt.alloc(), &ROWS);
}
