use crate::name::{Name, Operand};
use std::marker::Model;
use wasm_values::Val;

/// Values in order. Contracts see the list of the values.
#[derive(Drop)]
pub struct ValList(pub Vec<Val>);

impl Model for ValList {
    ghost use Rattle.std.specs.Prelude.{List};
    ghost use Rattle.wasm_values.specs.declared.values.Val.{Val as Member};

    ghost Value = { List Member };

    ghost view = { λ list. list.0.items };
}

impl ValList {
    ghost use Rattle.std.specs.Prelude.{◌≡◌};

    /// The values, lent.
    pub fn as_slice(&self) -> &[Val]
        ensures { result.now ≡ self.now }
    {
        self.0.as_slice()
    }
}

/// Names in order. Contracts see the list of the names.
#[derive(Drop)]
pub struct NameList(pub Vec<Name>);

impl Model for NameList {
    ghost use Rattle.std.specs.Prelude.{List};
    ghost use Rattle.spec_machine.specs.declared.name.Name.{Name as Named};

    ghost Value = { List Named };

    ghost view = { λ list. list.0.items };
}

impl NameList {
    ghost use Rattle.std.specs.Prelude.{◌≡◌};

    /// The names, lent.
    pub fn as_slice(&self) -> &[Name]
        ensures { result.now ≡ self.now }
    {
        self.0.as_slice()
    }
}

/// Operands in order. Contracts see the list of the operands.
#[derive(Drop)]
pub struct OperandList(pub Vec<Operand>);

impl Model for OperandList {
    ghost use Rattle.std.specs.Prelude.{List};
    ghost use Rattle.spec_machine.specs.declared.name.Operand.{Operand as Given};

    ghost Value = { List Given };

    ghost view = { λ list. list.0.items };
}

impl OperandList {
    ghost use Rattle.std.specs.Prelude.{◌≡◌};

    /// The operands, lent.
    pub fn as_slice(&self) -> &[Operand]
        ensures { result.now ≡ self.now }
    {
        self.0.as_slice()
    }
}

/// The name of an export. Contracts see the list of its bytes.
#[derive(Drop)]
pub struct TextName(pub String);

impl Model for TextName {
    ghost use Rattle.std.specs.Prelude.{List, ℕ, string_bytes};

    ghost Value = { List ℕ };

    ghost view = { λ text. string_bytes text.0 };
}

impl TextName {
    ghost use Rattle.std.specs.Prelude.{◌≡◌};

    /// The name, lent.
    pub fn as_str(&self) -> &str
        ensures { result.now ≡ self.now }
    {
        self.0.as_str()
    }
}
