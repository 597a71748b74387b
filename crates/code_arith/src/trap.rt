/// Why an operator on integers gives no number.
#[derive(Clone, Copy, Debug, PartialEq, Eq)]
pub enum ArithTrap {
    /// A division, or a remainder, by 0.
    IntegerDivisionByZero,
    /// The signed division of the least number by -1.
    IntegerOverflow,
}
