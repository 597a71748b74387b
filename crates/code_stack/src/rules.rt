/// What an engine and a store say of a run of code: how many functions may be open, whether code consumes fuel, whether
/// epochs are read, and whether a limiter and a deadline behaviour are asked.
#[derive(Clone, Copy)]
pub struct Rules {
    pub frames: usize,
    pub consumes_fuel: bool,
    pub reads_epochs: bool,
    pub limited: bool,
    pub behaving: bool,
}
