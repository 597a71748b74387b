//! Hostile guests, and what they come to.
ghost use Rattle.example_plugins.specs.Bytes.{OthersKeep};

use crate::board::{Guests, Kept};
use crate::calls::{bytes_of, function_from, have, number_from};
use wasm_embedding::{HostBody, PluginFault, Shown, Val};

/// What the prowler came to: its loop of stores traps past the end of its own memory; it gets the pages that are left
/// in the pool; and through so many pages its fuel does not last.
#[derive(Debug, Drop)]
pub(crate) struct Prowled {
    scribbled: Result<(), PluginFault>,
    pages: Result<Option<i32>, PluginFault>,
    again: Result<(), PluginFault>,
    bytes: Option<[u8; 4]>,
}

/// Has the prowler do all it can. The memories of each other guest are byte for byte as they were.
pub(crate) fn prowl<H: HostBody<Kept>>(
    plugins: &mut Guests,
    host: &mut Shown<H>,
    prowler: usize,
) -> Prowled
    requires ready { H.ready host.old.inner }
    ensures ready { H.ready host.new.inner }
    ensures others { OthersKeep plugins.old plugins.new prowler }
{
    let scribbled = have(plugins, host, prowler, "scribble");
    let pages = number_from(plugins, host, prowler, "hoard", &[]);
    let again = have(plugins, host, prowler, "scribble");
    Prowled {
        scribbled,
        pages,
        again,
        bytes: bytes_of(plugins, prowler),
    }
}

/// What the smuggler came to, who hands its function to another: the other takes its own, and not the smuggler's; and
/// what the smuggler left on the board is not given to the other, whose call fails instead.
#[derive(Debug, Drop)]
pub(crate) struct Smuggled {
    own: Result<Option<i32>, PluginFault>,
    handed: Result<Option<i32>, PluginFault>,
    left: Result<Option<i32>, PluginFault>,
    found: Result<Option<i32>, PluginFault>,
    bytes: Option<[u8; 4]>,
}

/// What a guest answers that is to apply the function that another, or itself, gives.
fn apply_given<H: HostBody<Kept>>(
    plugins: &mut Guests,
    host: &mut Shown<H>,
    giver: usize,
    name: &str,
    taker: usize,
) -> Result<Option<i32>, PluginFault>
    requires ready { H.ready host.old.inner }
    ensures ready { H.ready host.new.inner }
{
    let given = function_from(plugins, host, giver, name)?;
    number_from(plugins, host, taker, "apply", &[given, Val::I32(2)])
}

/// Has the other guest apply its own function, and then what the smuggler hands out and what it leaves on the board.
pub(crate) fn smuggle<H: HostBody<Kept>>(
    plugins: &mut Guests,
    host: &mut Shown<H>,
    smuggler: usize,
    other: usize,
) -> Smuggled
    requires ready { H.ready host.old.inner }
    ensures ready { H.ready host.new.inner }
{
    Smuggled {
        own: apply_given(plugins, host, other, "adder", other),
        handed: apply_given(plugins, host, smuggler, "hand_out", other),
        left: number_from(plugins, host, smuggler, "leave", &[]),
        found: number_from(plugins, host, other, "take", &[]),
        bytes: bytes_of(plugins, smuggler),
    }
}
