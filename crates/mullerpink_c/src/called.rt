/// How a call ended.
#[repr(C)]
#[derive(Clone, Copy)]
pub struct MullerpinkCalled {
    /// 0 where its results, or the bytes that it answered, were written, 9 where there is no room for them, 14 and 15 where it ended in a trap or was refused,
    /// 16 where an argument is no value, 11 where the name is no UTF-8; else the exit status of the program.
    pub code: u32,
    /// Which trap, from 1 to 10, or which refusal, from 1 to 23, and 0 where it is neither.
    pub cause: u32,
    /// How many results, or bytes, there are, and 0 with each code but 0 and 9.
    pub count: usize,
}
