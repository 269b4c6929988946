//! Nodes as texts: an expression as it is written in a dictionary, with the numbers of facts for paths, and amounts in cents.

use dict_source::{ManyOp, OneOp, PickOp, TwoOp};
use fact_values::{NoMemory, Value};
use node_eval::{Node, NodeCase, NodeRead, ResolvedPath};

/// Appends a text.
pub fn put(text: &mut String, part: &str) -> Result<(), NoMemory> {
    text.push_str(part)?;
    Ok(())
}

/// Appends a number behind a text.
pub fn put_number(text: &mut String, before: &str, number: i64) -> Result<(), NoMemory> {
    put(text, before)?;
    write!(text, "{number}")?;
    Ok(())
}

fn put_cents(text: &mut String, cents: i64) -> Result<(), NoMemory> {
    put_number(text, "", cents)?;
    put(text, "c")
}

fn put_two(
    text: &mut String,
    before: &str,
    first: i64,
    between: &str,
    second: i64,
) -> Result<(), NoMemory> {
    put_number(text, before, first)?;
    put_number(text, between, second)
}

fn write_value(text: &mut String, value: &Value) -> Result<(), NoMemory> {
    match value {
        Value::Boolean(b) => put(text, if *b { "true" } else { "false" }),
        Value::Int(n) => put_number(text, "", n.get()),
        Value::Dollar(amount) => put_cents(text, amount.cents()),
        Value::Rational(q) => put_two(text, "", q.num(), ":", q.den()),
        Value::Day(day) => put_number(text, "day ", day.number()),
        Value::Text(of) => put(text, of.as_str()),
        Value::Choice(list, place) => put_two(text, "option ", *list as i64, " ", *place as i64),
        _ => put(text, "?"),
    }
}

fn write_path(text: &mut String, path: ResolvedPath) -> Result<(), NoMemory> {
    match path {
        ResolvedPath::Global(n) => put_number(text, "/", n as i64),
        ResolvedPath::Same(n) => put_number(text, "../", n as i64),
        ResolvedPath::Inner(n) => put_number(text, "", n as i64),
        ResolvedPath::Each(n, m) => put_two(text, "/", n as i64, "/*/", m as i64),
        ResolvedPath::Through(n, m) => put_two(text, "/", n as i64, "/", m as i64),
        ResolvedPath::SameThrough(n, m) => put_two(text, "../", n as i64, "/", m as i64),
    }
}

fn read_name(read: NodeRead) -> &'static str {
    match read {
        NodeRead::Dependency => "Dependency ",
        NodeRead::IsComplete => "IsComplete ",
        NodeRead::CollectionSize => "CollectionSize ",
        NodeRead::SumInt => "SumInt ",
        NodeRead::SumDollar => "SumDollar ",
        NodeRead::Count => "Count ",
    }
}

fn many_name(op: ManyOp) -> &'static str {
    match op {
        ManyOp::All => "All",
        ManyOp::Any => "Any",
        ManyOp::Add => "Add",
        ManyOp::Subtract => "Subtract",
        ManyOp::GreaterOf => "GreaterOf",
        ManyOp::LesserOf => "LesserOf",
    }
}

fn write_one(text: &mut String, op: &OneOp) -> Result<(), NoMemory> {
    match op {
        OneOp::Not => put(text, "Not "),
        OneOp::Round => put(text, "Round "),
        OneOp::YearOf => put(text, "YearOf "),
        OneOp::MonthOf => put(text, "MonthOf "),
        OneOp::DayOf => put(text, "DayOf "),
        OneOp::Lookup(table) => {
            put(text, "Lookup ")?;
            put(text, table.name().as_str())?;
            put(text, " ")
        }
    }
}

fn two_name(op: TwoOp) -> &'static str {
    match op {
        TwoOp::Multiply => "Multiply ",
        TwoOp::Divide => "Divide ",
        TwoOp::AddDays => "AddDays ",
        TwoOp::Equal => "Equal ",
        TwoOp::NotEqual => "NotEqual ",
        TwoOp::GreaterThan => "GreaterThan ",
        TwoOp::LessThan => "LessThan ",
        TwoOp::GreaterThanOrEqual => "GreaterThanOrEqual ",
        TwoOp::LessThanOrEqual => "LessThanOrEqual ",
        TwoOp::AddMonths => "AddMonths ",
        TwoOp::AddYears => "AddYears ",
        TwoOp::DaysBetween => "DaysBetween ",
        TwoOp::AgeOn => "AgeOn ",
        TwoOp::RoundUp => "RoundUp ",
        TwoOp::RoundDown => "RoundDown ",
        TwoOp::RoundNearest => "RoundNearest ",
    }
}

fn pick_name(op: PickOp) -> &'static str {
    match op {
        PickOp::Filter => "Filter ",
        PickOp::Find => "Find ",
    }
}

/// Appends the text of a node.
#[cycle(writing)]
pub fn write_node(text: &mut String, node: &Node) -> Result<(), NoMemory> {
    match node {
        Node::Const(value) => write_value(text, value),
        Node::Read(read, path) => {
            put(text, read_name(*read))?;
            write_path(text, *path)
        }
        Node::Switch(cases) => write_cases(text, cases.as_slice()),
        Node::Many(op, operands) => {
            put(text, many_name(*op))?;
            write_operands(text, operands.as_slice())
        }
        Node::Globals(op, facts) => {
            put(text, many_name(*op))?;
            write_globals(text, facts.as_slice())
        }
        Node::One(op, operand) => {
            write_one(text, op)?;
            write_operand(text, operand)
        }
        Node::Two(op, left, right) => {
            put(text, two_name(*op))?;
            write_operand(text, left)?;
            put(text, " ")?;
            write_operand(text, right)
        }
        Node::Pick(op, list, test) => {
            put(text, pick_name(*op))?;
            write_path(text, *list)?;
            put(text, " ")?;
            write_operand(text, test)
        }
    }
}

#[cycle(writing)]
fn write_operand(text: &mut String, operand: &Node) -> Result<(), NoMemory> {
    put(text, "[")?;
    write_node(text, operand)?;
    put(text, "]")
}

#[cycle(writing)]
fn write_operands(text: &mut String, operands: &[Node]) -> Result<(), NoMemory> {
    for operand in operands {
        put(text, " ")?;
        write_operand(text, operand)?;
    }
    Ok(())
}

// As the Dependencies that they are.
fn write_globals(text: &mut String, facts: &[u32]) -> Result<(), NoMemory> {
    for fact in facts {
        put(text, " [")?;
        put(text, read_name(NodeRead::Dependency))?;
        write_path(text, ResolvedPath::Global(*fact))?;
        put(text, "]")?;
    }
    Ok(())
}

#[cycle(writing)]
fn write_cases(text: &mut String, cases: &[NodeCase]) -> Result<(), NoMemory> {
    put(text, "Switch")?;
    for case in cases {
        put(text, " ")?;
        write_operand(text, &case.test)?;
        write_operand(text, &case.outcome)?;
    }
    Ok(())
}
