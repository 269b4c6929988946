// Facts as constants.
use crate::form::Form;

/// The type that a fact states.
#[derive(Clone, Copy)]
pub enum Kind<'a> {
    Boolean,
    Int,
    Dollar,
    Rational,
    Day,
    Text,
    /// An option of the list with this name.
    Enum(&'a str),
    /// A collection that a person opens.
    Collection,
    /// Members of the collection with this path.
    ListOf(&'a str),
    /// A member of the collection with this path.
    ItemOf(&'a str),
}

/// A fact: its path and its type, and what else is written of it.
#[derive(Clone, Copy)]
pub enum WrittenFact<'a> {
    /// A person answers it.
    Asked(&'a str, Kind<'a>),
    /// A person answers it, and the words say what is asked.
    Question(&'a str, Kind<'a>, &'a str),
    /// A person answers it with this value or a greater one, and the words say what is asked.
    QuestionFrom(&'a str, Kind<'a>, &'a str, &'a str),
    /// It follows from others.
    Derived(&'a str, Kind<'a>, Form<'a>),
}
