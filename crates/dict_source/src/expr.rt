// Expressions as they are written.
use crate::constant::Constant;
use crate::operators::{ManyOp, OneOp, PickOp, ReadOp, TwoOp};
use crate::path_use::PathUse;

/// An expression as it is written.
#[derive(Drop)]
#[cycle(expr)]
pub enum Expr {
    Const(Constant),
    Read(ReadOp, PathUse),
    /// The outcome of the first case whose test is true.
    Switch(Vec<Case>),
    Many(ManyOp, Vec<Expr>),
    One(OneOp, Box<Expr>),
    /// A comparison's first operand is on its left.
    Two(TwoOp, Box<Expr>, Box<Expr>),
    /// The collection, and the condition that its members are to meet.
    Pick(PickOp, PathUse, Box<Expr>),
}

/// One case of a switch.
#[derive(Drop)]
#[cycle(expr)]
pub struct Case {
    pub test: Expr,
    pub outcome: Expr,
}
