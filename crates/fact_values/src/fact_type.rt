// The types that a fact may have.
/// The type of a fact.
#[derive(Clone, Copy, Debug, PartialEq, Eq)]
pub enum FactType {
    Boolean,
    Int,
    Dollar,
    Rational,
    Day,
    Text,
    /// One option of the list with this place among the lists, from 0.
    Enum(u32),
    /// Members of the collection whose fact has this number.
    Collection(u32),
    /// One member of the collection whose fact has this number.
    Item(u32),
}
