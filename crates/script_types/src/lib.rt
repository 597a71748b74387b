//! Types as JSON data, as scripts have them: function types by their places in a list, and the types of values,
//! tables, memories and globals.
#![tactic(auto)]

mod types;

pub use types::{
    ValTypeReader, global_type, memory_type, ref_type, table_type, type_at, types_of, val_type,
    whole_32,
};
