//! The operators on integers as node's WebAssembly has them, written by this crate's `operators.js`.
//!
//! Beside each operator stand its results in hexadecimal digits, or its traps: of two operands the first is one of the
//! first six of its type, and the second each of the twelve in turn; one operand is each of the twelve.

use wasm_syntax::{BinOp, UnOp};

/// The operands of type `i32`.
pub(crate) const I32_OPERANDS: [u64; 12] = [
    0x0, 0x1, 0xffffffff, 0x80000000, 0x7fffffff, 0xa5b4c3d2, 0x1f, 0x20, 0x21, 0x3f, 0x40, 0x41,
];

/// The operands of type `i64`.
pub(crate) const I64_OPERANDS: [u64; 12] = [
    0x0,
    0x1,
    0xffffffffffffffff,
    0x8000000000000000,
    0x7fffffffffffffff,
    0xa5b4c3d2e1f00f1e,
    0x1f,
    0x20,
    0x21,
    0x3f,
    0x40,
    0x41,
];

// The operators of two operands, in tables of a few rows: the proof of a function grows faster than the table in it.

pub(crate) const I32_ARITHMETIC: [(BinOp, &str); 7] = [
    (
        BinOp::I32Add,
        "0 1 ffffffff 80000000 7fffffff a5b4c3d2 1f 20 21 3f 40 41 1 2 0 80000001 80000000 a5b4c3d3
20 21 22 40 41 42 ffffffff 0 fffffffe 7fffffff 7ffffffe a5b4c3d1 1e 1f 20 3e 3f 40 80000000
80000001 7fffffff 0 ffffffff 25b4c3d2 8000001f 80000020 80000021 8000003f 80000040 80000041
7fffffff 80000000 7ffffffe ffffffff fffffffe 25b4c3d1 8000001e 8000001f 80000020 8000003e 8000003f
80000040 a5b4c3d2 a5b4c3d3 a5b4c3d1 25b4c3d2 25b4c3d1 4b6987a4 a5b4c3f1 a5b4c3f2 a5b4c3f3 a5b4c411
a5b4c412 a5b4c413",
    ),
    (
        BinOp::I32Sub,
        "0 ffffffff 1 80000000 80000001 5a4b3c2e ffffffe1 ffffffe0 ffffffdf ffffffc1 ffffffc0
ffffffbf 1 0 2 80000001 80000002 5a4b3c2f ffffffe2 ffffffe1 ffffffe0 ffffffc2 ffffffc1 ffffffc0
ffffffff fffffffe 0 7fffffff 80000000 5a4b3c2d ffffffe0 ffffffdf ffffffde ffffffc0 ffffffbf
ffffffbe 80000000 7fffffff 80000001 0 1 da4b3c2e 7fffffe1 7fffffe0 7fffffdf 7fffffc1 7fffffc0
7fffffbf 7fffffff 7ffffffe 80000000 ffffffff 0 da4b3c2d 7fffffe0 7fffffdf 7fffffde 7fffffc0
7fffffbf 7fffffbe a5b4c3d2 a5b4c3d1 a5b4c3d3 25b4c3d2 25b4c3d3 0 a5b4c3b3 a5b4c3b2 a5b4c3b1
a5b4c393 a5b4c392 a5b4c391",
    ),
    (
        BinOp::I32Mul,
        "0 0 0 0 0 0 0 0 0 0 0 0 0 1 ffffffff 80000000 7fffffff a5b4c3d2 1f 20 21 3f 40 41 0
ffffffff 1 80000000 80000001 5a4b3c2e ffffffe1 ffffffe0 ffffffdf ffffffc1 ffffffc0 ffffffbf 0
80000000 80000000 0 80000000 0 80000000 0 80000000 80000000 0 80000000 0 7fffffff 80000001 80000000
1 5a4b3c2e 7fffffe1 ffffffe0 7fffffdf 7fffffc1 ffffffc0 7fffffbf 0 a5b4c3d2 5a4b3c2e 0 5a4b3c2e
a9199844 10e3b66e b6987a40 5c4d3e12 c77c30ae 6d30f480 12e5b852",
    ),
    (
        BinOp::I32DivS,
        "by-zero 0 0 0 0 0 0 0 0 0 0 0 by-zero 1 ffffffff 0 0 0 0 0 0 0 0 0 by-zero ffffffff 1 0 0
0 0 0 0 0 0 0 by-zero 80000000 overflow 1 ffffffff 1 fbdef7be fc000000 fc1f07c2 fdf7df7e fe000000
fe07e07f by-zero 7fffffff 80000001 0 1 ffffffff 4210842 3ffffff 3e0f83e 2082082 1ffffff 1f81f81
by-zero a5b4c3d2 5a4b3c2e 0 0 1 fd1658e6 fd2da61f fd4389d1 fe91176d fe96d310 fe9c618a",
    ),
    (
        BinOp::I32DivU,
        "by-zero 0 0 0 0 0 0 0 0 0 0 0 by-zero 1 0 0 0 0 0 0 0 0 0 0 by-zero ffffffff 1 1 2 1
8421084 7ffffff 7c1f07c 4104104 3ffffff 3f03f03 by-zero 80000000 0 1 1 0 4210842 4000000 3e0f83e
2082082 2000000 1f81f81 by-zero 7fffffff 0 0 1 0 4210842 3ffffff 3e0f83e 2082082 1ffffff 1f81f81
by-zero a5b4c3d2 0 1 1 1 5586969 52da61e 5057a4c 2a15871 296d30f 28ca08d",
    ),
    (
        BinOp::I32RemS,
        "by-zero 0 0 0 0 0 0 0 0 0 0 0 by-zero 0 0 1 1 1 1 1 1 1 1 1 by-zero 0 0 ffffffff ffffffff
ffffffff ffffffff ffffffff ffffffff ffffffff ffffffff ffffffff by-zero 0 0 0 ffffffff da4b3c2e
fffffffe 0 fffffffe fffffffe 0 ffffffc1 by-zero 0 0 7fffffff 0 25b4c3d1 1 1f 1 1 3f 3e by-zero 0 0
a5b4c3d2 a5b4c3d2 0 fffffff8 fffffff2 ffffffe1 ffffffff ffffffd2 ffffffc8",
    ),
    (
        BinOp::I32RemU,
        "by-zero 0 0 0 0 0 0 0 0 0 0 0 by-zero 0 1 1 1 1 1 1 1 1 1 1 by-zero 0 0 7fffffff 1
5a4b3c2d 3 1f 3 3 3f 3c by-zero 0 80000000 0 1 80000000 2 0 2 2 0 3f by-zero 0 7fffffff 7fffffff 0
7fffffff 1 1f 1 1 3f 3e by-zero 0 a5b4c3d2 25b4c3d2 25b4c3d3 0 1b 12 6 3 12 5",
    ),
];

pub(crate) const I32_BITS: [(BinOp, &str); 8] = [
    (
        BinOp::I32And,
        "0 0 0 0 0 0 0 0 0 0 0 0 0 1 1 0 1 0 1 0 1 1 0 1 0 1 ffffffff 80000000 7fffffff a5b4c3d2 1f
20 21 3f 40 41 0 0 80000000 80000000 0 80000000 0 0 0 0 0 0 0 1 7fffffff 0 7fffffff 25b4c3d2 1f 20
21 3f 40 41 0 0 a5b4c3d2 80000000 25b4c3d2 a5b4c3d2 12 0 0 12 40 40",
    ),
    (
        BinOp::I32Or,
        "0 1 ffffffff 80000000 7fffffff a5b4c3d2 1f 20 21 3f 40 41 1 1 ffffffff 80000001 7fffffff
a5b4c3d3 1f 21 21 3f 41 41 ffffffff ffffffff ffffffff ffffffff ffffffff ffffffff ffffffff ffffffff
ffffffff ffffffff ffffffff ffffffff 80000000 80000001 ffffffff 80000000 ffffffff a5b4c3d2 8000001f
80000020 80000021 8000003f 80000040 80000041 7fffffff 7fffffff ffffffff ffffffff 7fffffff ffffffff
7fffffff 7fffffff 7fffffff 7fffffff 7fffffff 7fffffff a5b4c3d2 a5b4c3d3 ffffffff a5b4c3d2 ffffffff
a5b4c3d2 a5b4c3df a5b4c3f2 a5b4c3f3 a5b4c3ff a5b4c3d2 a5b4c3d3",
    ),
    (
        BinOp::I32Xor,
        "0 1 ffffffff 80000000 7fffffff a5b4c3d2 1f 20 21 3f 40 41 1 0 fffffffe 80000001 7ffffffe
a5b4c3d3 1e 21 20 3e 41 40 ffffffff fffffffe 0 7fffffff 80000000 5a4b3c2d ffffffe0 ffffffdf
ffffffde ffffffc0 ffffffbf ffffffbe 80000000 80000001 7fffffff 0 ffffffff 25b4c3d2 8000001f
80000020 80000021 8000003f 80000040 80000041 7fffffff 7ffffffe 80000000 ffffffff 0 da4b3c2d
7fffffe0 7fffffdf 7fffffde 7fffffc0 7fffffbf 7fffffbe a5b4c3d2 a5b4c3d3 5a4b3c2d 25b4c3d2 da4b3c2d
0 a5b4c3cd a5b4c3f2 a5b4c3f3 a5b4c3ed a5b4c392 a5b4c393",
    ),
    (
        BinOp::I32Shl,
        "0 0 0 0 0 0 0 0 0 0 0 0 1 2 80000000 1 80000000 40000 80000000 1 2 80000000 1 2 ffffffff
fffffffe 80000000 ffffffff 80000000 fffc0000 80000000 ffffffff fffffffe 80000000 ffffffff fffffffe
80000000 0 0 80000000 0 0 0 80000000 0 0 80000000 0 7fffffff fffffffe 80000000 7fffffff 80000000
fffc0000 80000000 7fffffff fffffffe 80000000 7fffffff fffffffe a5b4c3d2 4b6987a4 0 a5b4c3d2 0
f480000 0 a5b4c3d2 4b6987a4 0 a5b4c3d2 4b6987a4",
    ),
    (
        BinOp::I32ShrS,
        "0 0 0 0 0 0 0 0 0 0 0 0 1 0 0 1 0 0 0 1 0 0 1 0 ffffffff ffffffff ffffffff ffffffff
ffffffff ffffffff ffffffff ffffffff ffffffff ffffffff ffffffff ffffffff 80000000 c0000000 ffffffff
80000000 ffffffff ffffe000 ffffffff 80000000 c0000000 ffffffff 80000000 c0000000 7fffffff 3fffffff
0 7fffffff 0 1fff 0 7fffffff 3fffffff 0 7fffffff 3fffffff a5b4c3d2 d2da61e9 ffffffff a5b4c3d2
ffffffff ffffe96d ffffffff a5b4c3d2 d2da61e9 ffffffff a5b4c3d2 d2da61e9",
    ),
    (
        BinOp::I32ShrU,
        "0 0 0 0 0 0 0 0 0 0 0 0 1 0 0 1 0 0 0 1 0 0 1 0 ffffffff 7fffffff 1 ffffffff 1 3fff 1
ffffffff 7fffffff 1 ffffffff 7fffffff 80000000 40000000 1 80000000 1 2000 1 80000000 40000000 1
80000000 40000000 7fffffff 3fffffff 0 7fffffff 0 1fff 0 7fffffff 3fffffff 0 7fffffff 3fffffff
a5b4c3d2 52da61e9 1 a5b4c3d2 1 296d 1 a5b4c3d2 52da61e9 1 a5b4c3d2 52da61e9",
    ),
    (
        BinOp::I32Rotl,
        "0 0 0 0 0 0 0 0 0 0 0 0 1 2 80000000 1 80000000 40000 80000000 1 2 80000000 1 2 ffffffff
ffffffff ffffffff ffffffff ffffffff ffffffff ffffffff ffffffff ffffffff ffffffff ffffffff ffffffff
80000000 1 40000000 80000000 40000000 20000 40000000 80000000 1 40000000 80000000 1 7fffffff
fffffffe bfffffff 7fffffff bfffffff fffdffff bfffffff 7fffffff fffffffe bfffffff 7fffffff fffffffe
a5b4c3d2 4b6987a5 52da61e9 a5b4c3d2 52da61e9 f4a96d3 52da61e9 a5b4c3d2 4b6987a5 52da61e9 a5b4c3d2
4b6987a5",
    ),
    (
        BinOp::I32Rotr,
        "0 0 0 0 0 0 0 0 0 0 0 0 1 80000000 2 1 2 4000 2 1 80000000 2 1 80000000 ffffffff ffffffff
ffffffff ffffffff ffffffff ffffffff ffffffff ffffffff ffffffff ffffffff ffffffff ffffffff 80000000
40000000 1 80000000 1 2000 1 80000000 40000000 1 80000000 40000000 7fffffff bfffffff fffffffe
7fffffff fffffffe ffffdfff fffffffe 7fffffff bfffffff fffffffe 7fffffff bfffffff a5b4c3d2 52da61e9
4b6987a5 a5b4c3d2 4b6987a5 30f4a96d 4b6987a5 a5b4c3d2 52da61e9 4b6987a5 a5b4c3d2 52da61e9",
    ),
];

pub(crate) const I32_COMPARISONS: [(BinOp, &str); 10] = [
    (
        BinOp::I32Eq,
        "1 0 0 0 0 0 0 0 0 0 0 0 0 1 0 0 0 0 0 0 0 0 0 0 0 0 1 0 0 0 0 0 0 0 0 0 0 0 0 1 0 0 0 0 0
0 0 0 0 0 0 0 1 0 0 0 0 0 0 0 0 0 0 0 0 1 0 0 0 0 0 0",
    ),
    (
        BinOp::I32Ne,
        "0 1 1 1 1 1 1 1 1 1 1 1 1 0 1 1 1 1 1 1 1 1 1 1 1 1 0 1 1 1 1 1 1 1 1 1 1 1 1 0 1 1 1 1 1
1 1 1 1 1 1 1 0 1 1 1 1 1 1 1 1 1 1 1 1 0 1 1 1 1 1 1",
    ),
    (
        BinOp::I32LtS,
        "0 1 0 0 1 0 1 1 1 1 1 1 0 0 0 0 1 0 1 1 1 1 1 1 1 1 0 0 1 0 1 1 1 1 1 1 1 1 1 0 1 1 1 1 1
1 1 1 0 0 0 0 0 0 0 0 0 0 0 0 1 1 1 0 1 0 1 1 1 1 1 1",
    ),
    (
        BinOp::I32LtU,
        "0 1 1 1 1 1 1 1 1 1 1 1 0 0 1 1 1 1 1 1 1 1 1 1 0 0 0 0 0 0 0 0 0 0 0 0 0 0 1 0 0 1 0 0 0
0 0 0 0 0 1 1 0 1 0 0 0 0 0 0 0 0 1 0 0 0 0 0 0 0 0 0",
    ),
    (
        BinOp::I32GtS,
        "0 0 1 1 0 1 0 0 0 0 0 0 1 0 1 1 0 1 0 0 0 0 0 0 0 0 0 1 0 1 0 0 0 0 0 0 0 0 0 0 0 0 0 0 0
0 0 0 1 1 1 1 0 1 1 1 1 1 1 1 0 0 0 1 0 0 0 0 0 0 0 0",
    ),
    (
        BinOp::I32GtU,
        "0 0 0 0 0 0 0 0 0 0 0 0 1 0 0 0 0 0 0 0 0 0 0 0 1 1 0 1 1 1 1 1 1 1 1 1 1 1 0 0 1 0 1 1 1
1 1 1 1 1 0 0 0 0 1 1 1 1 1 1 1 1 0 1 1 0 1 1 1 1 1 1",
    ),
    (
        BinOp::I32LeS,
        "1 1 0 0 1 0 1 1 1 1 1 1 0 1 0 0 1 0 1 1 1 1 1 1 1 1 1 0 1 0 1 1 1 1 1 1 1 1 1 1 1 1 1 1 1
1 1 1 0 0 0 0 1 0 0 0 0 0 0 0 1 1 1 0 1 1 1 1 1 1 1 1",
    ),
    (
        BinOp::I32LeU,
        "1 1 1 1 1 1 1 1 1 1 1 1 0 1 1 1 1 1 1 1 1 1 1 1 0 0 1 0 0 0 0 0 0 0 0 0 0 0 1 1 0 1 0 0 0
0 0 0 0 0 1 1 1 1 0 0 0 0 0 0 0 0 1 0 0 1 0 0 0 0 0 0",
    ),
    (
        BinOp::I32GeS,
        "1 0 1 1 0 1 0 0 0 0 0 0 1 1 1 1 0 1 0 0 0 0 0 0 0 0 1 1 0 1 0 0 0 0 0 0 0 0 0 1 0 0 0 0 0
0 0 0 1 1 1 1 1 1 1 1 1 1 1 1 0 0 0 1 0 1 0 0 0 0 0 0",
    ),
    (
        BinOp::I32GeU,
        "1 0 0 0 0 0 0 0 0 0 0 0 1 1 0 0 0 0 0 0 0 0 0 0 1 1 1 1 1 1 1 1 1 1 1 1 1 1 0 1 1 0 1 1 1
1 1 1 1 1 0 0 1 0 1 1 1 1 1 1 1 1 0 1 1 1 1 1 1 1 1 1",
    ),
];

pub(crate) const I64_ARITHMETIC: [(BinOp, &str); 7] = [
    (
        BinOp::I64Add,
        "0 1 ffffffffffffffff 8000000000000000 7fffffffffffffff a5b4c3d2e1f00f1e 1f 20 21 3f 40 41
1 2 0 8000000000000001 8000000000000000 a5b4c3d2e1f00f1f 20 21 22 40 41 42 ffffffffffffffff 0
fffffffffffffffe 7fffffffffffffff 7ffffffffffffffe a5b4c3d2e1f00f1d 1e 1f 20 3e 3f 40
8000000000000000 8000000000000001 7fffffffffffffff 0 ffffffffffffffff 25b4c3d2e1f00f1e
800000000000001f 8000000000000020 8000000000000021 800000000000003f 8000000000000040
8000000000000041 7fffffffffffffff 8000000000000000 7ffffffffffffffe ffffffffffffffff
fffffffffffffffe 25b4c3d2e1f00f1d 800000000000001e 800000000000001f 8000000000000020
800000000000003e 800000000000003f 8000000000000040 a5b4c3d2e1f00f1e a5b4c3d2e1f00f1f
a5b4c3d2e1f00f1d 25b4c3d2e1f00f1e 25b4c3d2e1f00f1d 4b6987a5c3e01e3c a5b4c3d2e1f00f3d
a5b4c3d2e1f00f3e a5b4c3d2e1f00f3f a5b4c3d2e1f00f5d a5b4c3d2e1f00f5e a5b4c3d2e1f00f5f",
    ),
    (
        BinOp::I64Sub,
        "0 ffffffffffffffff 1 8000000000000000 8000000000000001 5a4b3c2d1e0ff0e2 ffffffffffffffe1
ffffffffffffffe0 ffffffffffffffdf ffffffffffffffc1 ffffffffffffffc0 ffffffffffffffbf 1 0 2
8000000000000001 8000000000000002 5a4b3c2d1e0ff0e3 ffffffffffffffe2 ffffffffffffffe1
ffffffffffffffe0 ffffffffffffffc2 ffffffffffffffc1 ffffffffffffffc0 ffffffffffffffff
fffffffffffffffe 0 7fffffffffffffff 8000000000000000 5a4b3c2d1e0ff0e1 ffffffffffffffe0
ffffffffffffffdf ffffffffffffffde ffffffffffffffc0 ffffffffffffffbf ffffffffffffffbe
8000000000000000 7fffffffffffffff 8000000000000001 0 1 da4b3c2d1e0ff0e2 7fffffffffffffe1
7fffffffffffffe0 7fffffffffffffdf 7fffffffffffffc1 7fffffffffffffc0 7fffffffffffffbf
7fffffffffffffff 7ffffffffffffffe 8000000000000000 ffffffffffffffff 0 da4b3c2d1e0ff0e1
7fffffffffffffe0 7fffffffffffffdf 7fffffffffffffde 7fffffffffffffc0 7fffffffffffffbf
7fffffffffffffbe a5b4c3d2e1f00f1e a5b4c3d2e1f00f1d a5b4c3d2e1f00f1f 25b4c3d2e1f00f1e
25b4c3d2e1f00f1f 0 a5b4c3d2e1f00eff a5b4c3d2e1f00efe a5b4c3d2e1f00efd a5b4c3d2e1f00edf
a5b4c3d2e1f00ede a5b4c3d2e1f00edd",
    ),
    (
        BinOp::I64Mul,
        "0 0 0 0 0 0 0 0 0 0 0 0 0 1 ffffffffffffffff 8000000000000000 7fffffffffffffff
a5b4c3d2e1f00f1e 1f 20 21 3f 40 41 0 ffffffffffffffff 1 8000000000000000 8000000000000001
5a4b3c2d1e0ff0e2 ffffffffffffffe1 ffffffffffffffe0 ffffffffffffffdf ffffffffffffffc1
ffffffffffffffc0 ffffffffffffffbf 0 8000000000000000 8000000000000000 0 8000000000000000 0
8000000000000000 0 8000000000000000 8000000000000000 0 8000000000000000 0 7fffffffffffffff
8000000000000001 8000000000000000 1 5a4b3c2d1e0ff0e2 7fffffffffffffe1 ffffffffffffffe0
7fffffffffffffdf 7fffffffffffffc1 ffffffffffffffc0 7fffffffffffffbf 0 a5b4c3d2e1f00f1e
5a4b3c2d1e0ff0e2 0 5a4b3c2d1e0ff0e2 1a785ce715248784 10e3b6895c11d4a2 b6987a5c3e01e3c0
5c4d3e2f1ff1f2de c77c30e59a13b862 6d30f4b87c03c780 12e5b88b5df3d69e",
    ),
    (
        BinOp::I64DivS,
        "by-zero 0 0 0 0 0 0 0 0 0 0 0 by-zero 1 ffffffffffffffff 0 0 0 0 0 0 0 0 0 by-zero
ffffffffffffffff 1 0 0 0 0 0 0 0 0 0 by-zero 8000000000000000 overflow 1 ffffffffffffffff 1
fbdef7bdef7bdef8 fc00000000000000 fc1f07c1f07c1f08 fdf7df7df7df7df8 fe00000000000000
fe07e07e07e07e08 by-zero 7fffffffffffffff 8000000000000001 0 1 ffffffffffffffff 421084210842108
3ffffffffffffff 3e0f83e0f83e0f8 208208208208208 1ffffffffffffff 1f81f81f81f81f8 by-zero
a5b4c3d2e1f00f1e 5a4b3c2d1e0ff0e2 0 0 1 fd1658e5c5394ad0 fd2da61e970f8079 fd4389d0165c9b9d
fe91176cff85d79b fe96d30f4b87c03d fe9c618926ec0ffd",
    ),
    (
        BinOp::I64DivU,
        "by-zero 0 0 0 0 0 0 0 0 0 0 0 by-zero 1 0 0 0 0 0 0 0 0 0 0 by-zero ffffffffffffffff 1 1 2
1 842108421084210 7ffffffffffffff 7c1f07c1f07c1f0 410410410410410 3ffffffffffffff 3f03f03f03f03f0
by-zero 8000000000000000 0 1 1 0 421084210842108 400000000000000 3e0f83e0f83e0f8 208208208208208
200000000000000 1f81f81f81f81f8 by-zero 7fffffffffffffff 0 0 1 0 421084210842108 3ffffffffffffff
3e0f83e0f83e0f8 208208208208208 1ffffffffffffff 1f81f81f81f81f8 by-zero a5b4c3d2e1f00f1e 0 1 1 1
5586969e6418cdf 52da61e970f8078 5057a4c35645d8c 2a158710fc6dbab 296d30f4b87c03c 28ca08d172b13ec",
    ),
    (
        BinOp::I64RemS,
        "by-zero 0 0 0 0 0 0 0 0 0 0 0 by-zero 0 0 1 1 1 1 1 1 1 1 1 by-zero 0 0 ffffffffffffffff
ffffffffffffffff ffffffffffffffff ffffffffffffffff ffffffffffffffff ffffffffffffffff
ffffffffffffffff ffffffffffffffff ffffffffffffffff by-zero 0 0 0 ffffffffffffffff da4b3c2d1e0ff0e2
fffffffffffffff8 0 fffffffffffffff8 fffffffffffffff8 0 fffffffffffffff8 by-zero 0 0
7fffffffffffffff 0 25b4c3d2e1f00f1d 7 1f 7 7 3f 7 by-zero 0 0 a5b4c3d2e1f00f1e a5b4c3d2e1f00f1e 0
ffffffffffffffee fffffffffffffffe ffffffffffffffe1 fffffffffffffff9 ffffffffffffffde
ffffffffffffffe1",
    ),
    (
        BinOp::I64RemU,
        "by-zero 0 0 0 0 0 0 0 0 0 0 0 by-zero 0 1 1 1 1 1 1 1 1 1 1 by-zero 0 0 7fffffffffffffff 1
5a4b3c2d1e0ff0e1 f 1f f f 3f f by-zero 0 8000000000000000 0 1 8000000000000000 8 0 8 8 0 8 by-zero
0 7fffffffffffffff 7fffffffffffffff 0 7fffffffffffffff 7 1f 7 7 3f 7 by-zero 0 a5b4c3d2e1f00f1e
25b4c3d2e1f00f1e 25b4c3d2e1f00f1f 0 1d 1e 12 9 1e 32",
    ),
];

pub(crate) const I64_BITS: [(BinOp, &str); 8] = [
    (
        BinOp::I64And,
        "0 0 0 0 0 0 0 0 0 0 0 0 0 1 1 0 1 0 1 0 1 1 0 1 0 1 ffffffffffffffff 8000000000000000
7fffffffffffffff a5b4c3d2e1f00f1e 1f 20 21 3f 40 41 0 0 8000000000000000 8000000000000000 0
8000000000000000 0 0 0 0 0 0 0 1 7fffffffffffffff 0 7fffffffffffffff 25b4c3d2e1f00f1e 1f 20 21 3f
40 41 0 0 a5b4c3d2e1f00f1e 8000000000000000 25b4c3d2e1f00f1e a5b4c3d2e1f00f1e 1e 0 0 1e 0 0",
    ),
    (
        BinOp::I64Or,
        "0 1 ffffffffffffffff 8000000000000000 7fffffffffffffff a5b4c3d2e1f00f1e 1f 20 21 3f 40 41
1 1 ffffffffffffffff 8000000000000001 7fffffffffffffff a5b4c3d2e1f00f1f 1f 21 21 3f 41 41
ffffffffffffffff ffffffffffffffff ffffffffffffffff ffffffffffffffff ffffffffffffffff
ffffffffffffffff ffffffffffffffff ffffffffffffffff ffffffffffffffff ffffffffffffffff
ffffffffffffffff ffffffffffffffff 8000000000000000 8000000000000001 ffffffffffffffff
8000000000000000 ffffffffffffffff a5b4c3d2e1f00f1e 800000000000001f 8000000000000020
8000000000000021 800000000000003f 8000000000000040 8000000000000041 7fffffffffffffff
7fffffffffffffff ffffffffffffffff ffffffffffffffff 7fffffffffffffff ffffffffffffffff
7fffffffffffffff 7fffffffffffffff 7fffffffffffffff 7fffffffffffffff 7fffffffffffffff
7fffffffffffffff a5b4c3d2e1f00f1e a5b4c3d2e1f00f1f ffffffffffffffff a5b4c3d2e1f00f1e
ffffffffffffffff a5b4c3d2e1f00f1e a5b4c3d2e1f00f1f a5b4c3d2e1f00f3e a5b4c3d2e1f00f3f
a5b4c3d2e1f00f3f a5b4c3d2e1f00f5e a5b4c3d2e1f00f5f",
    ),
    (
        BinOp::I64Xor,
        "0 1 ffffffffffffffff 8000000000000000 7fffffffffffffff a5b4c3d2e1f00f1e 1f 20 21 3f 40 41
1 0 fffffffffffffffe 8000000000000001 7ffffffffffffffe a5b4c3d2e1f00f1f 1e 21 20 3e 41 40
ffffffffffffffff fffffffffffffffe 0 7fffffffffffffff 8000000000000000 5a4b3c2d1e0ff0e1
ffffffffffffffe0 ffffffffffffffdf ffffffffffffffde ffffffffffffffc0 ffffffffffffffbf
ffffffffffffffbe 8000000000000000 8000000000000001 7fffffffffffffff 0 ffffffffffffffff
25b4c3d2e1f00f1e 800000000000001f 8000000000000020 8000000000000021 800000000000003f
8000000000000040 8000000000000041 7fffffffffffffff 7ffffffffffffffe 8000000000000000
ffffffffffffffff 0 da4b3c2d1e0ff0e1 7fffffffffffffe0 7fffffffffffffdf 7fffffffffffffde
7fffffffffffffc0 7fffffffffffffbf 7fffffffffffffbe a5b4c3d2e1f00f1e a5b4c3d2e1f00f1f
5a4b3c2d1e0ff0e1 25b4c3d2e1f00f1e da4b3c2d1e0ff0e1 0 a5b4c3d2e1f00f01 a5b4c3d2e1f00f3e
a5b4c3d2e1f00f3f a5b4c3d2e1f00f21 a5b4c3d2e1f00f5e a5b4c3d2e1f00f5f",
    ),
    (
        BinOp::I64Shl,
        "0 0 0 0 0 0 0 0 0 0 0 0 1 2 8000000000000000 1 8000000000000000 40000000 80000000
100000000 200000000 8000000000000000 1 2 ffffffffffffffff fffffffffffffffe 8000000000000000
ffffffffffffffff 8000000000000000 ffffffffc0000000 ffffffff80000000 ffffffff00000000
fffffffe00000000 8000000000000000 ffffffffffffffff fffffffffffffffe 8000000000000000 0 0
8000000000000000 0 0 0 0 0 0 8000000000000000 0 7fffffffffffffff fffffffffffffffe 8000000000000000
7fffffffffffffff 8000000000000000 ffffffffc0000000 ffffffff80000000 ffffffff00000000
fffffffe00000000 8000000000000000 7fffffffffffffff fffffffffffffffe a5b4c3d2e1f00f1e
4b6987a5c3e01e3c 0 a5b4c3d2e1f00f1e 0 b87c03c780000000 70f8078f00000000 e1f00f1e00000000
c3e01e3c00000000 0 a5b4c3d2e1f00f1e 4b6987a5c3e01e3c",
    ),
    (
        BinOp::I64ShrS,
        "0 0 0 0 0 0 0 0 0 0 0 0 1 0 0 1 0 0 0 0 0 0 1 0 ffffffffffffffff ffffffffffffffff
ffffffffffffffff ffffffffffffffff ffffffffffffffff ffffffffffffffff ffffffffffffffff
ffffffffffffffff ffffffffffffffff ffffffffffffffff ffffffffffffffff ffffffffffffffff
8000000000000000 c000000000000000 ffffffffffffffff 8000000000000000 ffffffffffffffff
fffffffe00000000 ffffffff00000000 ffffffff80000000 ffffffffc0000000 ffffffffffffffff
8000000000000000 c000000000000000 7fffffffffffffff 3fffffffffffffff 0 7fffffffffffffff 0 1ffffffff
ffffffff 7fffffff 3fffffff 0 7fffffffffffffff 3fffffffffffffff a5b4c3d2e1f00f1e d2da61e970f8078f
ffffffffffffffff a5b4c3d2e1f00f1e ffffffffffffffff fffffffe96d30f4b ffffffff4b6987a5
ffffffffa5b4c3d2 ffffffffd2da61e9 ffffffffffffffff a5b4c3d2e1f00f1e d2da61e970f8078f",
    ),
    (
        BinOp::I64ShrU,
        "0 0 0 0 0 0 0 0 0 0 0 0 1 0 0 1 0 0 0 0 0 0 1 0 ffffffffffffffff 7fffffffffffffff 1
ffffffffffffffff 1 3ffffffff 1ffffffff ffffffff 7fffffff 1 ffffffffffffffff 7fffffffffffffff
8000000000000000 4000000000000000 1 8000000000000000 1 200000000 100000000 80000000 40000000 1
8000000000000000 4000000000000000 7fffffffffffffff 3fffffffffffffff 0 7fffffffffffffff 0 1ffffffff
ffffffff 7fffffff 3fffffff 0 7fffffffffffffff 3fffffffffffffff a5b4c3d2e1f00f1e 52da61e970f8078f 1
a5b4c3d2e1f00f1e 1 296d30f4b 14b6987a5 a5b4c3d2 52da61e9 1 a5b4c3d2e1f00f1e 52da61e970f8078f",
    ),
    (
        BinOp::I64Rotl,
        "0 0 0 0 0 0 0 0 0 0 0 0 1 2 8000000000000000 1 8000000000000000 40000000 80000000
100000000 200000000 8000000000000000 1 2 ffffffffffffffff ffffffffffffffff ffffffffffffffff
ffffffffffffffff ffffffffffffffff ffffffffffffffff ffffffffffffffff ffffffffffffffff
ffffffffffffffff ffffffffffffffff ffffffffffffffff ffffffffffffffff 8000000000000000 1
4000000000000000 8000000000000000 4000000000000000 20000000 40000000 80000000 100000000
4000000000000000 8000000000000000 1 7fffffffffffffff fffffffffffffffe bfffffffffffffff
7fffffffffffffff bfffffffffffffff ffffffffdfffffff ffffffffbfffffff ffffffff7fffffff
fffffffeffffffff bfffffffffffffff 7fffffffffffffff fffffffffffffffe a5b4c3d2e1f00f1e
4b6987a5c3e01e3d 52da61e970f8078f a5b4c3d2e1f00f1e 52da61e970f8078f b87c03c7a96d30f4
70f8078f52da61e9 e1f00f1ea5b4c3d2 c3e01e3d4b6987a5 52da61e970f8078f a5b4c3d2e1f00f1e
4b6987a5c3e01e3d",
    ),
    (
        BinOp::I64Rotr,
        "0 0 0 0 0 0 0 0 0 0 0 0 1 8000000000000000 2 1 2 400000000 200000000 100000000 80000000 2
1 8000000000000000 ffffffffffffffff ffffffffffffffff ffffffffffffffff ffffffffffffffff
ffffffffffffffff ffffffffffffffff ffffffffffffffff ffffffffffffffff ffffffffffffffff
ffffffffffffffff ffffffffffffffff ffffffffffffffff 8000000000000000 4000000000000000 1
8000000000000000 1 200000000 100000000 80000000 40000000 1 8000000000000000 4000000000000000
7fffffffffffffff bfffffffffffffff fffffffffffffffe 7fffffffffffffff fffffffffffffffe
fffffffdffffffff fffffffeffffffff ffffffff7fffffff ffffffffbfffffff fffffffffffffffe
7fffffffffffffff bfffffffffffffff a5b4c3d2e1f00f1e 52da61e970f8078f 4b6987a5c3e01e3d
a5b4c3d2e1f00f1e 4b6987a5c3e01e3d 87c03c7a96d30f4b c3e01e3d4b6987a5 e1f00f1ea5b4c3d2
70f8078f52da61e9 4b6987a5c3e01e3d a5b4c3d2e1f00f1e 52da61e970f8078f",
    ),
];

pub(crate) const I64_COMPARISONS: [(BinOp, &str); 10] = [
    (
        BinOp::I64Eq,
        "1 0 0 0 0 0 0 0 0 0 0 0 0 1 0 0 0 0 0 0 0 0 0 0 0 0 1 0 0 0 0 0 0 0 0 0 0 0 0 1 0 0 0 0 0
0 0 0 0 0 0 0 1 0 0 0 0 0 0 0 0 0 0 0 0 1 0 0 0 0 0 0",
    ),
    (
        BinOp::I64Ne,
        "0 1 1 1 1 1 1 1 1 1 1 1 1 0 1 1 1 1 1 1 1 1 1 1 1 1 0 1 1 1 1 1 1 1 1 1 1 1 1 0 1 1 1 1 1
1 1 1 1 1 1 1 0 1 1 1 1 1 1 1 1 1 1 1 1 0 1 1 1 1 1 1",
    ),
    (
        BinOp::I64LtS,
        "0 1 0 0 1 0 1 1 1 1 1 1 0 0 0 0 1 0 1 1 1 1 1 1 1 1 0 0 1 0 1 1 1 1 1 1 1 1 1 0 1 1 1 1 1
1 1 1 0 0 0 0 0 0 0 0 0 0 0 0 1 1 1 0 1 0 1 1 1 1 1 1",
    ),
    (
        BinOp::I64LtU,
        "0 1 1 1 1 1 1 1 1 1 1 1 0 0 1 1 1 1 1 1 1 1 1 1 0 0 0 0 0 0 0 0 0 0 0 0 0 0 1 0 0 1 0 0 0
0 0 0 0 0 1 1 0 1 0 0 0 0 0 0 0 0 1 0 0 0 0 0 0 0 0 0",
    ),
    (
        BinOp::I64GtS,
        "0 0 1 1 0 1 0 0 0 0 0 0 1 0 1 1 0 1 0 0 0 0 0 0 0 0 0 1 0 1 0 0 0 0 0 0 0 0 0 0 0 0 0 0 0
0 0 0 1 1 1 1 0 1 1 1 1 1 1 1 0 0 0 1 0 0 0 0 0 0 0 0",
    ),
    (
        BinOp::I64GtU,
        "0 0 0 0 0 0 0 0 0 0 0 0 1 0 0 0 0 0 0 0 0 0 0 0 1 1 0 1 1 1 1 1 1 1 1 1 1 1 0 0 1 0 1 1 1
1 1 1 1 1 0 0 0 0 1 1 1 1 1 1 1 1 0 1 1 0 1 1 1 1 1 1",
    ),
    (
        BinOp::I64LeS,
        "1 1 0 0 1 0 1 1 1 1 1 1 0 1 0 0 1 0 1 1 1 1 1 1 1 1 1 0 1 0 1 1 1 1 1 1 1 1 1 1 1 1 1 1 1
1 1 1 0 0 0 0 1 0 0 0 0 0 0 0 1 1 1 0 1 1 1 1 1 1 1 1",
    ),
    (
        BinOp::I64LeU,
        "1 1 1 1 1 1 1 1 1 1 1 1 0 1 1 1 1 1 1 1 1 1 1 1 0 0 1 0 0 0 0 0 0 0 0 0 0 0 1 1 0 1 0 0 0
0 0 0 0 0 1 1 1 1 0 0 0 0 0 0 0 0 1 0 0 1 0 0 0 0 0 0",
    ),
    (
        BinOp::I64GeS,
        "1 0 1 1 0 1 0 0 0 0 0 0 1 1 1 1 0 1 0 0 0 0 0 0 0 0 1 1 0 1 0 0 0 0 0 0 0 0 0 1 0 0 0 0 0
0 0 0 1 1 1 1 1 1 1 1 1 1 1 1 0 0 0 1 0 1 0 0 0 0 0 0",
    ),
    (
        BinOp::I64GeU,
        "1 0 0 0 0 0 0 0 0 0 0 0 1 1 0 0 0 0 0 0 0 0 0 0 1 1 1 1 1 1 1 1 1 1 1 1 1 1 0 1 1 0 1 1 1
1 1 1 1 1 0 0 1 0 1 1 1 1 1 1 1 1 0 1 1 1 1 1 1 1 1 1",
    ),
];

/// The operators of one operand.
pub(crate) const UNARY_ROWS: [(UnOp, &str); 16] = [
    (UnOp::I32Clz, "20 1f 0 0 1 0 1b 1a 1a 1a 19 19"),
    (UnOp::I32Ctz, "20 0 0 1f 0 1 0 5 0 0 6 0"),
    (UnOp::I32Popcnt, "0 1 20 1 1f 10 5 1 2 6 1 2"),
    (UnOp::I32Eqz, "1 0 0 0 0 0 0 0 0 0 0 0"),
    (
        UnOp::I32Extend8S,
        "0 1 ffffffff 0 ffffffff ffffffd2 1f 20 21 3f 40 41",
    ),
    (
        UnOp::I32Extend16S,
        "0 1 ffffffff 0 ffffffff ffffc3d2 1f 20 21 3f 40 41",
    ),
    (
        UnOp::I64ExtendI32S,
        "0 1 ffffffffffffffff ffffffff80000000 7fffffff ffffffffa5b4c3d2 1f 20 21 3f 40 41",
    ),
    (
        UnOp::I64ExtendI32U,
        "0 1 ffffffff 80000000 7fffffff a5b4c3d2 1f 20 21 3f 40 41",
    ),
    (UnOp::I64Clz, "40 3f 0 0 1 0 3b 3a 3a 3a 39 39"),
    (UnOp::I64Ctz, "40 0 0 3f 0 1 0 5 0 0 6 0"),
    (UnOp::I64Popcnt, "0 1 40 1 3f 20 5 1 2 6 1 2"),
    (UnOp::I64Eqz, "1 0 0 0 0 0 0 0 0 0 0 0"),
    (
        UnOp::I64Extend8S,
        "0 1 ffffffffffffffff 0 ffffffffffffffff 1e 1f 20 21 3f 40 41",
    ),
    (
        UnOp::I64Extend16S,
        "0 1 ffffffffffffffff 0 ffffffffffffffff f1e 1f 20 21 3f 40 41",
    ),
    (
        UnOp::I64Extend32S,
        "0 1 ffffffffffffffff 0 ffffffffffffffff ffffffffe1f00f1e 1f 20 21 3f 40 41",
    ),
    (
        UnOp::I32WrapI64,
        "0 1 ffffffff 0 ffffffff e1f00f1e 1f 20 21 3f 40 41",
    ),
];
