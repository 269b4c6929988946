// Constants as a dictionary writes them.
/// A constant as it is written: its text, which may be no value of the type.
#[derive(Drop)]
pub enum Constant {
    True,
    False,
    Int(String),
    Dollar(String),
    Rational(String),
    Day(String),
    Text(String),
    /// The name of an enum, and one of its options.
    Choice(String, String),
}
