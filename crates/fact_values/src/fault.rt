// Why an operation on values has no result.
/// Why an operation on values has no result.
#[derive(Clone, Copy, Debug, PartialEq, Eq)]
pub enum ValueFault {
    /// The exact result leaves the range of its type.
    Overflow,
    /// The divisor is zero.
    ZeroDivide,
}
