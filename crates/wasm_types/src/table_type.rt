ghost use Rattle.std.specs.Prelude.{◌≡◌, ◌^◌, ◌<◌, ◌↔◌, true, IsOk, IfOk, IfErr, IfSome};
ghost use Rattle.wasm_types.specs.TableTypes.{table_parts, are_table_limits};

use crate::faults::TypeFault;
use crate::value_types::RefType;
use std::alloc::AllocError;
use std::marker::Model;

/// The type of a table: the type of an element, and the least and the greatest number of elements.
#[derive(PartialEq, Eq)]
pub struct TableType {
    element: RefType,
    minimum: u32,
    maximum: Option<u32>,
}

// Written out, so that the crates above do not prove it again of all that is in it.
impl Drop for TableType {
    fn drop(self) {
        let TableType {
            element: _element,
            minimum: _minimum,
            maximum: _maximum,
        } = self;
    }
}

impl Model for TableType {
    ghost use Rattle.std.specs.Prelude.{◌≡◌, true};
    ghost use Rattle.wasm_types.specs.TableTypes.{TableParts, table_code, table_parts, are_table_limits};

    ghost Value = { TableParts };

    ghost coded = { table_code };

    ghost view = { λ t. table_parts t.element t.minimum t.maximum };

    ghost invariant = { λ t. are_table_limits (table_parts t.element t.minimum t.maximum) ≡ true };

    ghost inverse = { λ l. record { element = l.element; minimum = l.minimum; maximum = l.maximum } };
}

impl TableType {
    /// A table type of at least `minimum` and at most `maximum` elements.
    ///
    /// `BadLimits` where the minimum passes the maximum.
    pub fn new(element: RefType, minimum: u32, maximum: Option<u32>) -> Result<TableType, TypeFault>
        ensures accepted { IsOk result ↔ (are_table_limits (table_parts element minimum maximum) ≡ true) }
        ensures parts { IfOk result (λ ty. ty ≡ table_parts element minimum maximum) }
        ensures refused { IfErr result (λ fault. fault ≡ TypeFault.BadLimits) }
    {
        if let Some(most) = maximum {
            if minimum > most {
                return Err(TypeFault::BadLimits);
            }
        }
        Ok(TableType {
            element,
            minimum,
            maximum,
        })
    }

    /// The type of an element, lent.
    pub fn element(&self) -> &RefType
        ensures { result.now ≡ self.now.element }
    {
        &self.element
    }

    /// The least number of elements, below 2^32.
    pub fn minimum(&self) -> u64
        ensures value { result ≡ self.now.minimum }
        ensures within { result < 2 ^ 32 }
    {
        u64::from(self.minimum)
    }

    /// The greatest number of elements, below 2^32, where the type names one.
    pub fn maximum(&self) -> Option<u64>
        ensures value { result ≡ self.now.maximum }
        ensures within { IfSome result (λ most. most < 2 ^ 32) }
    {
        match self.maximum {
            Some(most) => Some(u64::from(most)),
            None => None,
        }
    }

    /// Each table type keeps the limits that `new` tests.
    pub fn keeps_limits(&self)
        ensures { are_table_limits self.now ≡ true }
    {
        let _minimum = &self.minimum;
    }
}

impl Clone for TableType {
    ghost use Rattle.std.specs.Prelude.{◌≡◌};

    ghost is_clone = { λ x y. y ≡ x };

    fn clone(&self) -> Result<TableType, AllocError> {
        let element = self.element.clone()?;
        Ok(TableType {
            element,
            minimum: self.minimum,
            maximum: self.maximum,
        })
    }
}
