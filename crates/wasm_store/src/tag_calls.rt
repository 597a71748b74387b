ghost use Rattle.std.specs.Prelude.{◌≡◌};
ghost use Rattle.wasm_values.specs.declared.handles.Tag.{Tag as Handle};
ghost use Rattle.spec_machine.specs.GlobalCalls.{tag_new, tag_ty, tag_eq};
ghost use Rattle.store_state.specs.Calls.{Copies, Makes};
ghost use Rattle.wasm_store.specs.Stores.{KeepsRest};

use crate::store::Store;
use wasm_meter::{CallHooks, DeadlineBehaviour, HostData};
use wasm_types::TagType;
use wasm_values::{Refusal, Tag};

/// What a host does with tags. Contracts see the implementor as the handle of a tag.
///
/// Each call but `new` is refused with `WrongStore` where a handle is not of the store. A refused call changes nothing.
/// WebAssembly core specification, "Execution, modules", of tags.
pub trait TagCalls {
    /// The handle.
    ghost handle: { Self → Handle };

    /// A new tag of the type. `WrongEngine` where the type is of another engine.
    fn new<T: HostData, K: CallHooks<T>, B: DeadlineBehaviour<T>>(
        store: &mut Store<T, K, B>,
        ty: &TagType,
    ) -> Result<Tag, Refusal>
        ensures machine { Makes (tag_new store.old.machine ty.now) store.old.machine result store.new.machine }
        ensures rest { KeepsRest store.old store.new };

    /// The type that it was made with. It takes memory.
    fn ty<T: HostData, K: CallHooks<T>, B: DeadlineBehaviour<T>>(
        &self,
        store: &Store<T, K, B>,
    ) -> Result<TagType, Refusal>
        ensures { Copies (tag_ty store.now.machine (handle self.now)) result };

    /// Whether two handles are of one tag. Tags of one type are two all the same.
    fn eq<T: HostData, K: CallHooks<T>, B: DeadlineBehaviour<T>>(
        a: &Tag,
        b: &Tag,
        store: &Store<T, K, B>,
    ) -> Result<bool, Refusal>
        ensures { result ≡ tag_eq store.now.machine a.now b.now };
}

impl TagCalls for Tag {
    ghost handle = { λ tag. tag };

    fn new<T: HostData, K: CallHooks<T>, B: DeadlineBehaviour<T>>(
        store: &mut Store<T, K, B>,
        ty: &TagType,
    ) -> Result<Tag, Refusal> {
        store.objects.tag_new(ty)
    }

    fn ty<T: HostData, K: CallHooks<T>, B: DeadlineBehaviour<T>>(
        &self,
        store: &Store<T, K, B>,
    ) -> Result<TagType, Refusal> {
        store.objects.tag_ty(*self)
    }

    fn eq<T: HostData, K: CallHooks<T>, B: DeadlineBehaviour<T>>(
        a: &Tag,
        b: &Tag,
        store: &Store<T, K, B>,
    ) -> Result<bool, Refusal> {
        store.objects.tag_eq(*a, *b)
    }
}
