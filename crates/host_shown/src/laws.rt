//! What can be relied on of a host that hands out no function but those that its bodies were shown. The function does
//! nothing: its contract is the law, and a caller that names it has the law in its proof.
ghost use Rattle.law_plugins.specs.Laws.{NothingIsUnshown};
ghost use Rattle.law_plugins.specs.Showing.{ShowsStep};
ghost use Rattle.host_shown.specs.declared.shown.Shown.{Shown};

use wasm_host::HostBody;
use wasm_meter::{CallHooks, DeadlineBehaviour, EpochSource, HostData};

/// Whatever such a host is asked and says, beside any host data and source of epochs, in steps of any bodies in any
/// order: no value that it returns and no literal operand of what it asks for has a function that was not shown to the
/// body.
pub fn law_nothing_is_unshown<
    T: HostData,
    K: CallHooks<T>,
    B: DeadlineBehaviour<T>,
    H: HostBody<T>,
    E: EpochSource,
>()
    ensures { NothingIsUnshown {H = Shown H} (record {
      growths = T.growths;
      has = λ h body. H.has h.inner body;
      hooks = K.hooks;
      readings = E.readings;
      behaves = B.behaves;
      steps = λ h s body state cause view after say k t.
          ShowsStep H.steps h.inner h.faults s body state cause view after say k.inner k.faults t;
    }) }
{}
