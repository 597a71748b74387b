// What a step comes to, as it is handed on: how a run ends or pauses is put down in the thread, so that a step that goes
// on carries nothing.
#[derive(Clone, Copy)]
pub(crate) enum Signal {
    Goes,
    Checks,
    // As the thread says.
    Ends,
}
