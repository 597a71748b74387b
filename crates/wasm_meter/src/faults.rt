/// A limiter failed to answer whether a memory or a table may grow.
#[derive(Clone, Copy, Debug, PartialEq, Eq)]
pub struct LimiterFailed;

/// A call hook failed.
#[derive(Clone, Copy, Debug, PartialEq, Eq)]
pub struct HookFailed;

/// A deadline behaviour failed to answer what is done at the deadline.
#[derive(Clone, Copy, Debug, PartialEq, Eq)]
pub struct BehaviourFailed;

/// An epoch source failed to give a reading.
#[derive(Clone, Copy, Debug, PartialEq, Eq)]
pub struct EpochFailed;
