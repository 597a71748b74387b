ghost use Rattle.std.specs.Prelude.{◌≡◌};
ghost use Rattle.wasm_objects.specs.Globals.{global};

use crate::raw::RawVal;
use std::marker::Model;
use wasm_types::GlobalType;

/// A global: its type, and its value. Contracts see both.
pub struct GlobalObject {
    ty: GlobalType,
    value: RawVal,
}

// Written out, so that the crates above do not prove it again of all that is in it.
impl Drop for GlobalObject {
    fn drop(self) {
        let GlobalObject {
            ty: _ty,
            value: _value,
        } = self;
    }
}

impl Model for GlobalObject {
    ghost use Rattle.wasm_objects.specs.Globals.{Global, global};
    ghost use Rattle.wasm_objects.specs.Objects.{object_global_code};

    ghost Value = { Global };

    ghost coded = { object_global_code };

    ghost view = { λ g. global g.ty g.value };
}

impl GlobalObject {
    /// A global of this type that holds `value`.
    pub fn new(ty: GlobalType, value: RawVal) -> GlobalObject
        ensures { result ≡ global ty value }
    {
        GlobalObject { ty, value }
    }

    /// The type that it was made with.
    pub fn ty(&self) -> &GlobalType
        ensures { result.now ≡ self.now.ty }
    {
        &self.ty
    }

    /// Its value.
    pub fn get(&self) -> RawVal
        ensures { result ≡ self.now.value }
    {
        self.value
    }

    /// Makes `value` its value, whatever its type says of changes.
    pub fn set(&mut self, value: RawVal)
        ensures { self.new ≡ global self.old.ty value }
    {
        self.value = value;
    }
}
