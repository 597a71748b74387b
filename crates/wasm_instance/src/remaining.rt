ghost use Rattle.wasm_instance.specs.Exports.{AreThere};

use store_state::Instance as StoredInstance;
use wasm_module::ExportDecl;
use wasm_values::StoreId;

/// What an instance exports, each once, in the order in which its module declares them; from both ends.
#[derive(Drop)]
pub struct Exports<'a> {
    pub(crate) id: StoreId,
    pub(crate) instance: &'a StoredInstance,
    pub(crate) rest: &'a [ExportDecl],
    pub(crate) ghost there: { AreThere id instance.now rest.now },
}
