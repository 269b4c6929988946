// Expressions as constants. They take no memory.
use dict_source::{ManyOp, PickOp, ReadOp, TwoOp};
use fact_json::OneName;

/// A constant.
#[derive(Clone, Copy)]
pub enum Fixed<'a> {
    True,
    False,
    Int(&'a str),
    Dollar(&'a str),
    /// The amount of the figure with this name.
    DollarOf(&'a str),
    Rational(&'a str),
    Day(&'a str),
    /// The day of the figure with this name.
    DayOf(&'a str),
    Text(&'a str),
    /// The name of a list of options, and one of them.
    Choice(&'a str, &'a str),
}

/// An expression. Its nodes are those of `dict_source::Expr`, and paths are written as texts.
#[derive(Clone, Copy)]
#[cycle(form)]
pub enum Form<'a> {
    Const(Fixed<'a>),
    Read(ReadOp, &'a str),
    Switch(&'a [When<'a>]),
    Many(ManyOp, &'a [Form<'a>]),
    One(OneName, &'a Form<'a>),
    Two(TwoOp, &'a Form<'a>, &'a Form<'a>),
    Pick(PickOp, &'a str, &'a Form<'a>),
}

/// A case of a switch: its test, and its outcome.
#[derive(Clone, Copy)]
#[cycle(form)]
pub struct When<'a>(pub Form<'a>, pub Form<'a>);
