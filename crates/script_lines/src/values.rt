ghost use Rattle.std.specs.Prelude.{◌≡◌, ◌≢◌, [], ◌∷◌, ◌++◌, OnOk, OnErr, codes, string_bytes};
ghost use Rattle.std.specs.List.{flat_map};
ghost use Rattle.hex.specs.Hex.{encode_lower};
ghost use Rattle.script_lines.specs.Lines.{Begun, any_text, extern_text, func_text, instance_text, object_text, value_text};

use crate::pieces::{append_piece, append_pieces};
use itoa::Buffer;
use std::alloc::Global;
use wasm_types::OutOfMemory;
use wasm_values::{AnyRef, Extern, ExternRef, Func, Instance, Val};

/// Appends the kind of a value, and its bits.
fn append_bits(
    alloc: Global,
    text: &mut String,
    kind: &str,
    bytes: &[u8],
) -> Result<(), OutOfMemory>
    requires { kind.now ≢ [] }
    ensures appended { OnOk result (string_bytes text.new ≡ string_bytes text.old ++ (kind.now ++ encode_lower bytes.now)) }
    ensures short { OnErr result (Begun (kind.now ++ encode_lower bytes.now) (string_bytes text.old) (string_bytes text.new)) }
{
    let digits = hex::encode(alloc, bytes)?;
    append_pieces(text, kind, digits.as_str())?;
    Ok(())
}

fn append_func(text: &mut String, func: Option<Func>) -> Result<(), OutOfMemory>
    ensures appended { OnOk result (string_bytes text.new ≡ string_bytes text.old ++ (codes "funcref:" ++ func_text func)) }
    ensures short { OnErr result (Begun (codes "funcref:" ++ func_text func) (string_bytes text.old) (string_bytes text.new)) }
{
    match func {
        Some(func) => append_pieces(text, "funcref:", Buffer::new().format(func.index()))?,
        None => append_piece(text, "funcref:null")?,
    }
    Ok(())
}

fn append_extern(text: &mut String, reference: Option<ExternRef>) -> Result<(), OutOfMemory>
    ensures appended { OnOk result (string_bytes text.new ≡ string_bytes text.old ++ (codes "externref:" ++ extern_text reference)) }
    ensures short { OnErr result (Begun (codes "externref:" ++ extern_text reference) (string_bytes text.old) (string_bytes text.new)) }
{
    match reference {
        Some(reference) => append_pieces(text, "externref:", Buffer::new().format(reference.0))?,
        None => append_piece(text, "externref:null")?,
    }
    Ok(())
}

fn append_any(text: &mut String, reference: Option<AnyRef>) -> Result<(), OutOfMemory>
    ensures appended { OnOk result (string_bytes text.new ≡ string_bytes text.old ++ (codes "anyref:" ++ any_text reference)) }
    ensures short { OnErr result (Begun (codes "anyref:" ++ any_text reference) (string_bytes text.old) (string_bytes text.new)) }
{
    match reference {
        Some(reference) => append_pieces(text, "anyref:", Buffer::new().format(reference.i31()))?,
        None => append_piece(text, "anyref:null")?,
    }
    Ok(())
}

fn append_value(alloc: Global, text: &mut String, val: Val) -> Result<(), OutOfMemory>
    ensures appended { OnOk result (string_bytes text.new ≡ string_bytes text.old ++ value_text val) }
    ensures short { OnErr result (Begun (value_text val) (string_bytes text.old) (string_bytes text.new)) }
{
    match val {
        Val::I32(number) => append_pieces(text, "i32:", Buffer::new().format(number))?,
        Val::I64(number) => append_pieces(text, "i64:", Buffer::new().format(number))?,
        Val::F32(bits) => append_bits(alloc, text, "f32:", &bits.to_be_bytes())?,
        Val::F64(bits) => append_bits(alloc, text, "f64:", &bits.to_be_bytes())?,
        Val::V128(vector) => append_bits(alloc, text, "v128:", &vector.0.to_be_bytes())?,
        Val::FuncRef(func) => append_func(text, func)?,
        Val::ExternRef(reference) => append_extern(text, reference)?,
        Val::AnyRef(reference) => append_any(text, reference)?,
    }
    Ok(())
}

/// Appends a value as one more word.
fn append_item(alloc: Global, text: &mut String, val: Val) -> Result<(), OutOfMemory>
    ensures appended { OnOk result (string_bytes text.new ≡ string_bytes text.old ++ (codes " " ++ value_text val)) }
    ensures short { OnErr result (Begun (codes " " ++ value_text val) (string_bytes text.old) (string_bytes text.new)) }
{
    append_piece(text, " ")?;
    append_value(alloc, text, val)?;
    Ok(())
}

/// Appends each value as one more word.
fn append_each(alloc: Global, text: &mut String, vals: &[Val]) -> Result<(), OutOfMemory>
    ensures appended { OnOk result (string_bytes text.new
        ≡ string_bytes text.old ++ flat_map (λ val. 32 ∷ value_text val) vals.now) }
    ensures short { OnErr result (Begun (flat_map (λ val. 32 ∷ value_text val) vals.now)
        (string_bytes text.old) (string_bytes text.new)) }
{
    for val in vals {
        append_item(alloc, text, *val)?;
    }
    Ok(())
}

/// Appends the line of values, without its end.
pub(crate) fn append_values(
    alloc: Global,
    text: &mut String,
    vals: &[Val],
) -> Result<(), OutOfMemory>
    ensures appended { OnOk result (string_bytes text.new ≡ string_bytes text.old
        ++ (codes "ok values" ++ flat_map (λ val. 32 ∷ value_text val) vals.now)) }
    ensures short { OnErr result (Begun (codes "ok values" ++ flat_map (λ val. 32 ∷ value_text val) vals.now)
        (string_bytes text.old) (string_bytes text.new)) }
{
    append_piece(text, "ok values")?;
    append_each(alloc, text, vals)?;
    Ok(())
}

/// Appends the line of an object, without its end: its kind and its number in its store.
pub(crate) fn append_object(text: &mut String, found: Extern) -> Result<(), OutOfMemory>
    ensures appended { OnOk result (string_bytes text.new ≡ string_bytes text.old ++ (codes "ok " ++ object_text found)) }
    ensures short { OnErr result (Begun (codes "ok " ++ object_text found) (string_bytes text.old) (string_bytes text.new)) }
{
    match found {
        Extern::Func(func) => append_pieces(text, "ok func ", Buffer::new().format(func.index()))?,
        Extern::Global(global) => {
            append_pieces(text, "ok global ", Buffer::new().format(global.index()))?
        }
        Extern::Table(table) => append_pieces(
            text,
            "ok table ",
            Buffer::new().format(table.index()),
        )?,
        Extern::Memory(memory) => {
            append_pieces(text, "ok memory ", Buffer::new().format(memory.index()))?
        }
        Extern::Tag(tag) => append_pieces(text, "ok tag ", Buffer::new().format(tag.index()))?,
    }
    Ok(())
}

/// Appends the line of an instance, without its end.
pub(crate) fn append_instance(text: &mut String, found: Instance) -> Result<(), OutOfMemory>
    ensures appended { OnOk result (string_bytes text.new ≡ string_bytes text.old ++ (codes "ok " ++ instance_text found)) }
    ensures short { OnErr result (Begun (codes "ok " ++ instance_text found) (string_bytes text.old) (string_bytes text.new)) }
{
    append_pieces(text, "ok instance ", Buffer::new().format(found.index()))?;
    Ok(())
}
