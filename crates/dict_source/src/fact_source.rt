// Facts as they are written: path, type, expressions and limits.
use crate::expr::Expr;
use crate::path_use::PathUse;
use fact_paths::{FactPath, Name};
use fact_values::FactType;

/// The type that a fact states, as it is written.
#[derive(Drop)]
pub enum TypeText {
    /// One of the six types that need no name.
    Scalar(FactType),
    /// `Enum(N)`
    EnumOf(Name),
    /// `Collection`, of a writable fact.
    WritableList,
    /// `Collection(P)`, of a derived fact.
    ListOf(PathUse),
    /// `Item(P)`
    ItemOf(PathUse),
}

/// A limit on the answers of a writable fact, with its text as it is written.
#[derive(Drop)]
pub enum LimitText {
    /// The least value.
    Min(String),
    /// The greatest value.
    Max(String),
    /// The most bytes of a text.
    MaxLength(String),
    /// The name of a check.
    Check(String),
}

/// The condition under which a fact has another value.
#[derive(Drop)]
pub struct Conditional {
    pub test: Expr,
    pub value: Expr,
}

/// A fact as it is written.
#[derive(Drop)]
pub struct FactSource {
    pub path_text: String,
    /// What the path's text spells: `None` where it spells no path of a fact.
    pub path: Option<FactPath>,
    pub stated: TypeText,
    pub limits: Vec<LimitText>,
    /// How the fact follows from others: `None` for a writable fact.
    pub main: Option<Expr>,
    pub conditional: Option<Conditional>,
    /// What stands for an incomplete result.
    pub placeholder: Option<Expr>,
    /// What the fact is, in words for people.
    pub description: Option<String>,
}
