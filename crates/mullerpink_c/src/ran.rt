/// How a run or a session ended, and how many bytes it wrote.
#[repr(C)]
#[derive(Clone, Copy)]
pub struct MullerpinkRan {
    /// The exit status of the program, and 11 where words are no UTF-8.
    pub code: u32,
    pub count: usize,
}
