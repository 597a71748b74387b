/// Why data is no script.
#[derive(Clone, Copy, Debug, PartialEq, Eq)]
pub enum ScriptFault {
    /// The data is not of the form that was asked for.
    NotScript,
    /// The allocator had no memory left.
    OutOfMemory,
}

/// Why bytes give no JSON data.
#[derive(Clone, Copy, Debug, PartialEq, Eq)]
pub enum JsonFault {
    /// The bytes have no reading as JSON.
    NotJson,
    /// The allocator had no memory left.
    OutOfMemory,
}
