ghost use Rattle.std.specs.Prelude.{◌≡◌, ◌≤◌, min, IfOk, IfErr, Some, None};
ghost use Rattle.std.specs.Option.{option_copied};
ghost use Rattle.wasm_types.specs.declared.plain.Finality.TheVariants.{Final};
ghost use Rattle.wasm_types.specs.Signatures.{is_of, is_above_of, depth_above, size_above, depth_in, size_in, end};
ghost use Rattle.wasm_types.specs.FunctionParts.{with_type, types_of, supertype_of, parts, parts_of, from_parts};
ghost use Rattle.wasm_types.specs.FunctionRules.{AreSound, IsAboveSound, IsMade, IsTested, fault, fits_below};

use crate::faults::TypeFault;
use crate::matching::{are_all_of, match_all};
use crate::plain::{EngineId, Finality};
use crate::value_types::{FuncParts, FuncType, HeapType, ValType};
use std::alloc::{AllocError, Global};
use std::rc::Rc;

/// The greatest depth of a function type.
const MOST_DEPTH: u32 = 32;

/// The greatest size of a function type.
const MOST_SIZE: u32 = 65536;

// The depth and the size of a type or a list. A list's size is counted no further than just past the limit.
#[derive(Clone, Copy)]
struct Extent {
    depth: u32,
    size: u32,
}

impl FuncType {
    /// The final function type without supertype of these parameters and results.
    ///
    /// `WrongEngine` where a function type in them is of another engine, then `TypeDepth` where the type would be
    /// more than 32 deep or of a size above 65,536; `OutOfMemory`.
    pub fn try_new(
        alloc: Global,
        engine: EngineId,
        params: &[ValType],
        results: &[ValType],
    ) -> Result<FuncType, TypeFault>
        ensures answer { IsMade (parts engine.0 Final None params.now results.now) result }
        ensures parts { IfOk result (λ ty. parts_of ty ≡ parts engine.0 Final None params.now results.now) }
    {
        FuncType::with_finality_and_supertype(alloc, engine, Finality::Final, None, params, results)
    }

    /// The function type of these parts.
    ///
    /// `WrongEngine` where the supertype or a function type in the parts is of another engine. Then `BadSupertype`
    /// where the supertype is final, has another number of parameters or results, a parameter of it does not match
    /// the new one, or a new result does not match its result. Then `TypeDepth` where the type would be more than 32
    /// deep or of a size above 65,536. `OutOfMemory`.
    pub fn with_finality_and_supertype(
        alloc: Global,
        engine: EngineId,
        finality: Finality,
        supertype: Option<&FuncType>,
        params: &[ValType],
        results: &[ValType],
    ) -> Result<FuncType, TypeFault>
        ensures answer { IsMade
            (parts engine.0 finality (option_copied supertype.entry) params.now results.now)
            result }
        ensures parts { IfOk result (λ ty. parts_of ty
            ≡ parts engine.0 finality (option_copied supertype.entry) params.now results.now) }
    {
        let extent = tested(engine, finality, supertype, params, results)?;
        match made(alloc, engine, finality, supertype, params, results, extent) {
            Ok(ty) => Ok(ty),
            Err(_) => Err(TypeFault::OutOfMemory),
        }
    }
}

impl ValType {
    fn extent(&self) -> Extent
        ensures depth { result.depth ≡ depth_in (with_type self.now end) }
        ensures size { result.size ≡ size_in (with_type self.now end) }
        ensures sound { AreSound (with_type self.now end) }
        ensures bound { result.size ≤ 65537 }
        ensures shallow { result.depth ≤ 32 }
    {
        match self {
            ValType::Ref(ty) => match ty.heap_type() {
                HeapType::ConcreteFunc(ty) => {
                    ty.keeps_rules();
                    Extent {
                        depth: ty.depth(),
                        size: 1 + ty.size(),
                    }
                }
                _ => Extent { depth: 0, size: 1 },
            },
            _ => Extent { depth: 0, size: 1 },
        }
    }
}

#[tactic(auto, using(crate::proofs::ListLemmas::depth_more, crate::proofs::ListLemmas::size_more, crate::proofs::ListLemmas::sound_more))]
fn extent_of(types: &[ValType]) -> Extent
    ensures depth { result.depth ≡ depth_in (types_of types.now) }
    ensures size { result.size ≡ min 65537 (size_in (types_of types.now)) }
    ensures sound { AreSound (types_of types.now) }
    ensures shallow { result.depth ≤ 32 }
{
    let mut depth = 0;
    let mut size = 0;
    let mut rest = types;
    while let [ty, tail @ ..] = rest {
        let more = ty.extent();
        depth = depth.max(more.depth);
        size = (size + more.size).min(MOST_SIZE + 1);
        rest = tail;
    }
    Extent { depth, size }
}

fn extent_above(supertype: Option<&FuncType>) -> Extent
    ensures depth { result.depth ≡ depth_above (supertype_of (option_copied supertype.entry)) }
    ensures size { result.size ≡ size_above (supertype_of (option_copied supertype.entry)) }
    ensures sound { IsAboveSound (supertype_of (option_copied supertype.entry)) }
    ensures shallow { result.depth ≤ 32 }
    ensures small { result.size ≤ 65536 }
{
    match supertype {
        None => Extent { depth: 0, size: 0 },
        Some(above) => {
            above.keeps_rules();
            Extent {
                depth: above.depth(),
                size: above.size(),
            }
        }
    }
}

fn is_supertype_of(engine: EngineId, supertype: Option<&FuncType>) -> bool
    ensures { result ≡ is_above_of engine.0 (supertype_of (option_copied supertype.entry)) }
{
    match supertype {
        None => true,
        Some(above) => above.comes_from_same_engine(engine),
    }
}

#[tactic(auto, using(crate::proofs::SoundTypeLemmas::eqb_own))]
fn is_one_engine(
    engine: EngineId,
    finality: Finality,
    supertype: Option<&FuncType>,
    params: &[ValType],
    results: &[ValType],
) -> bool
    ensures { result
        ≡ is_of engine.0 (from_parts
        (parts engine.0 finality (option_copied supertype.entry) params.now results.now)) }
{
    is_supertype_of(engine, supertype) && are_all_of(engine, params) && are_all_of(engine, results)
}

fn may_stand_below(supertype: Option<&FuncType>, params: &[ValType], results: &[ValType]) -> bool
    ensures { result ≡ fits_below (option_copied supertype.entry) params.now results.now }
{
    match supertype {
        None => true,
        Some(above) => match above.finality() {
            Finality::Final => false,
            Finality::NonFinal => {
                match_all(above.params(), params) && match_all(results, above.results())
            }
        },
    }
}

fn tested(
    engine: EngineId,
    finality: Finality,
    supertype: Option<&FuncType>,
    params: &[ValType],
    results: &[ValType],
) -> Result<Extent, TypeFault>
    ensures made { IfOk result (IsTested
        (parts engine.0 finality (option_copied supertype.entry) params.now results.now)) }
    ensures refused { IfErr result (λ e. fault
        (parts engine.0 finality (option_copied supertype.entry) params.now results.now)
        ≡ Some e) }
{
    if !is_one_engine(engine, finality, supertype, params, results) {
        return Err(TypeFault::WrongEngine);
    }
    if !may_stand_below(supertype, params, results) {
        return Err(TypeFault::BadSupertype);
    }
    let above = extent_above(supertype);
    let taken = extent_of(params);
    let given = extent_of(results);
    let depth = 1 + above.depth.max(taken.depth.max(given.depth));
    let size = 1 + (above.size + (taken.size + given.size));
    if depth > MOST_DEPTH || size > MOST_SIZE {
        return Err(TypeFault::TypeDepth);
    }
    Ok(Extent { depth, size })
}

fn copied(alloc: Global, types: &[ValType]) -> Result<Vec<ValType>, AllocError>
    ensures { IfOk result (λ v. v.items ≡ types.now) }
{
    let mut copies = Vec::with_capacity(alloc, types.len())?;
    for ty in types {
        copies.push(ty.clone()?)?;
    }
    Ok(copies)
}

fn made(
    alloc: Global,
    engine: EngineId,
    finality: Finality,
    supertype: Option<&FuncType>,
    params: &[ValType],
    results: &[ValType],
    extent: Extent,
) -> Result<FuncType, AllocError>
    requires { IsTested (parts engine.0 finality (option_copied supertype) params.now results.now) extent }
    ensures { IfOk result (λ t. t ≡ from_parts
        (parts engine.0 finality (option_copied supertype.entry) params.now results.now)) }
{
    let supertype = match supertype {
        None => None,
        Some(above) => Some(above.clone()?),
    };
    let params = copied(alloc, params)?;
    let results = copied(alloc, results)?;
    let parts = Rc::new(
        alloc,
        FuncParts {
            engine,
            finality,
            supertype,
            params,
            results,
            depth: extent.depth,
            size: extent.size,
        },
    )?;
    Ok(FuncType { parts })
}
