use wasm_types::Resource;

/// Why a call was refused, or a run ended without results. Where several causes hold at one moment, the first of this
/// order is answered. A refusal that a check finds changes nothing.
#[derive(Clone, Copy, Debug, PartialEq, Eq)]
pub enum Refusal {
    /// A name does not resolve to an item of the needed kind, or the module number of a command is not there.
    NoReply,
    /// A handle, or a function in a value, has another store's id, or an index that the store has not.
    WrongStore,
    /// The module or a type belongs to another engine than the store.
    WrongEngine,
    /// A call on fuel where the engine does not consume fuel.
    FuelNotConfigured,
    /// The yield interval is `Some(0)`.
    FuelInterval,
    /// A constant global was to be set.
    ImmutableGlobal,
    /// The number of imports differs from the number declared.
    ImportCount,
    /// The import at this place, from 0, is the first that does not match.
    ImportType(usize),
    /// The number of arguments differs from the function's type.
    ArgumentCount,
    /// The number of results asked for differs from the function's type.
    ResultCount,
    /// A value, an element type or a static type does not match.
    TypeMismatch,
    /// The store's number of these would pass its limit.
    ResourceLimit(Resource),
    /// A read or a write of a memory passes its end.
    MemoryAccessError,
    /// A creation, an instantiation or the host's growth of a memory or a table would pass its maximum or its range, or
    /// the limiter denied it.
    GrowFailed,
    /// The limiter failed. It comes only where the limiter's count of faults rose in this command.
    LimiterFault,
    /// The call hook failed. It comes only where the hook's count of faults rose in this command.
    HookFault,
    /// The source of epochs or the behaviour at the deadline failed. It comes only where its count of faults rose in
    /// this command.
    EpochFault,
    /// A run enters a host function whose body the host has not.
    NoHostBody,
    /// The body of a host function failed. It comes only where the host's count of faults rose in this command.
    HostFault,
    /// The body of a host function gave another number of values, a value of another type, or a function that
    /// `WrongStore` would refuse.
    HostResultType,
    /// The outermost command made as many turns as the engine allows, and another is due.
    TurnLimit,
    /// The instance has no export of that name, or one of another kind than was asked for.
    NoExport,
    /// The run ended in this trap.
    Trap(Trap),
    /// The allocator had no memory left. No other cause is ever answered as this, and it may come at any call that
    /// takes memory.
    OutOfMemory,
}

/// Why a run of WebAssembly ended without results.
#[derive(Clone, Copy, Debug, PartialEq, Eq)]
pub enum Trap {
    /// A load, a store or a bulk operation passes the end of a memory or of a data segment.
    MemoryOutOfBounds,
    /// An operation on a table or an indirect call passes the end of the table, or an initialization that of an element
    /// segment.
    TableOutOfBounds,
    /// An indirect call of a null reference.
    IndirectCallToNull,
    /// An indirect call of a function of another type.
    BadSignature,
    /// An integer was divided by zero.
    IntegerDivisionByZero,
    /// The quotient of a signed division is out of range.
    IntegerOverflow,
    /// The instruction `unreachable` was executed.
    UnreachableCodeReached,
    /// The frames of nested calls pass the engine's limit.
    StackOverflow,
    /// The fuel is spent.
    OutOfFuel,
    /// The deadline of the epochs has come, and its behaviour is to interrupt.
    Interrupt,
}
