ghost use Rattle.std.specs.Prelude.{◌≡◌};
ghost use Rattle.std.specs.IoError.{error_kind};
ghost use Rattle.wasm_embedding.specs.HostFaults.{of_refusal, of_link, of_plugin, of_bytes, of_module, of_type, of_json, of_script};
ghost use Rattle.wasm_embedding.specs.declared.faults.Fault.TheVariants as fault;

use crate::faults::Fault;
use script_json::{JsonFault, ScriptFault};
use std::alloc::{AllocError, AllocFailed};
use std::io;
use typed_closures::HostFailed;
use wasm_binary::BinaryFault;
use wasm_linker::LinkFault;
use wasm_module::ModuleFault;
use wasm_plugins::PluginFault;
use wasm_store::StoreIdsSpent;
use wasm_types::{OutOfMemory, TypeFault};
use wasm_values::Refusal;

impl From<Refusal> for Fault {
    ghost from_gives = { λ why told. told ≡ of_refusal why };

    fn from(why: Refusal) -> Fault {
        match why {
            Refusal::OutOfMemory => Fault::OutOfMemory,
            why => Fault::Refused(why),
        }
    }
}

impl From<LinkFault> for Fault {
    ghost from_gives = { λ why told. told ≡ of_link why };

    fn from(why: LinkFault) -> Fault {
        match why {
            LinkFault::Refused(why) => Fault::from(why),
            LinkFault::OutOfMemory => Fault::OutOfMemory,
            why => Fault::Unlinked(why),
        }
    }
}

impl From<PluginFault> for Fault {
    ghost from_gives = { λ why told. told ≡ of_plugin why };

    fn from(why: PluginFault) -> Fault {
        match why {
            PluginFault::Refused(why) => Fault::from(why),
            PluginFault::OutOfMemory => Fault::OutOfMemory,
            why => Fault::Guest(why),
        }
    }
}

impl From<BinaryFault> for Fault {
    ghost from_gives = { λ why told. told ≡ of_bytes why };

    fn from(why: BinaryFault) -> Fault {
        match why {
            BinaryFault::OutOfMemory => Fault::OutOfMemory,
            why => Fault::Unreadable(why),
        }
    }
}

impl From<ModuleFault> for Fault {
    ghost from_gives = { λ why told. told ≡ of_module why };

    fn from(why: ModuleFault) -> Fault {
        match why {
            ModuleFault::InvalidModule { rule, place } => Fault::Invalid { rule, place },
            ModuleFault::OutOfMemory => Fault::OutOfMemory,
        }
    }
}

impl From<TypeFault> for Fault {
    ghost from_gives = { λ why told. told ≡ of_type why };

    fn from(why: TypeFault) -> Fault {
        match why {
            TypeFault::OutOfMemory => Fault::OutOfMemory,
            why => Fault::NoType(why),
        }
    }
}

impl From<JsonFault> for Fault {
    ghost from_gives = { λ why told. told ≡ of_json why };

    fn from(why: JsonFault) -> Fault {
        match why {
            JsonFault::NotJson => Fault::NotJson,
            JsonFault::OutOfMemory => Fault::OutOfMemory,
        }
    }
}

impl From<ScriptFault> for Fault {
    ghost from_gives = { λ why told. told ≡ of_script why };

    fn from(why: ScriptFault) -> Fault {
        match why {
            ScriptFault::NotScript => Fault::NotModule,
            ScriptFault::OutOfMemory => Fault::OutOfMemory,
        }
    }
}

impl<T: Drop> From<StoreIdsSpent<T>> for Fault {
    ghost from_gives = { λ why told. told ≡ fault.StoreIdsSpent };

    fn from(_why: StoreIdsSpent<T>) -> Fault {
        Fault::StoreIdsSpent
    }
}

impl From<HostFailed> for Fault {
    ghost from_gives = { λ why told. told ≡ fault.HostFailed };

    fn from(_why: HostFailed) -> Fault {
        Fault::HostFailed
    }
}

impl From<io::Error> for Fault {
    ghost from_gives = { λ why told. told ≡ fault.Io (error_kind why) };

    fn from(why: io::Error) -> Fault {
        Fault::Io(why.kind())
    }
}

impl From<OutOfMemory> for Fault {
    ghost from_gives = { λ why told. told ≡ fault.OutOfMemory };

    fn from(_why: OutOfMemory) -> Fault {
        Fault::OutOfMemory
    }
}

impl From<AllocError> for Fault {
    ghost from_gives = { λ why told. told ≡ fault.OutOfMemory };

    fn from(_why: AllocError) -> Fault {
        Fault::OutOfMemory
    }
}

impl<T: Drop> From<AllocFailed<T>> for Fault {
    ghost from_gives = { λ why told. told ≡ fault.OutOfMemory };

    fn from(_why: AllocFailed<T>) -> Fault {
        Fault::OutOfMemory
    }
}
