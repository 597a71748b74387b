ghost use Rattle.std.specs.Prelude.{◌≡◌};
ghost use Rattle.c_values.specs.Kinds as kinds;

/// A value: the number of its kind, and its bits, of which the low half holds all but those of a vector.
#[repr(C)]
#[derive(Clone, Copy)]
pub struct CValue {
    pub kind: u32,
    pub low: u64,
    pub high: u64,
}

/// The kind of a value.
#[derive(Clone, Copy, PartialEq, Eq)]
pub enum Kind {
    I32,
    I64,
    F32,
    F64,
    V128,
    Func,
    Extern,
    Any,
}

impl Kind {
    /// The kind of this number, where there is one.
    pub fn from_number(number: u32) -> Option<Kind>
        ensures { result ≡ kinds.kind_of number }
    {
        match number {
            0 => Some(Kind::I32),
            1 => Some(Kind::I64),
            2 => Some(Kind::F32),
            3 => Some(Kind::F64),
            4 => Some(Kind::V128),
            5 => Some(Kind::Func),
            6 => Some(Kind::Extern),
            7 => Some(Kind::Any),
            _ => None,
        }
    }

    /// Its number.
    pub fn number(self) -> u32
        ensures { result ≡ kinds.number self }
    {
        match self {
            Kind::I32 => 0,
            Kind::I64 => 1,
            Kind::F32 => 2,
            Kind::F64 => 3,
            Kind::V128 => 4,
            Kind::Func => 5,
            Kind::Extern => 6,
            Kind::Any => 7,
        }
    }
}
