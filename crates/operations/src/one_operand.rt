// Nodes with one operand.
ghost use Rattle.std.specs.Prelude.{◌≡◌, IfOk, IsErr};
ghost use Rattle.dict_source.specs.Tables.{value_for};
ghost use Rattle.evaluation.specs.Operations.{GivesText, day_in, dollar_in, one_value, value_as};
ghost use Rattle.evaluation.specs.Over.{one_of};
ghost use Rattle.fact_values.specs.Days.{year_of};
ghost use Rattle.fact_values.specs.Rounding.{rounded_dollar};
ghost use Rattle.fact_values.specs.declared.fact_type.FactType.TheVariants as types;
ghost use Rattle.three_state.specs.Results.{outcome};

use crate::values::{day_in, dollar_in};
use dict_source::{LookupTable, OneOp};
use fact_values::{NoMemory, Value, ValueFault, Whole, round_dollar};
use law_arithmetic::{day_of, month_of};
use std::alloc::Global;
use three_state::{Res, finish, truth};

/// The result of a node with one operand. Only a text out of a table wants memory.
pub fn one(alloc: Global, op: &OneOp, operand: Res) -> Result<Res, NoMemory>
    ensures value { IfOk result (λ r. r ≡ one_of op.now operand) }
    ensures memory { IsErr result → GivesText op.now }
{
    match operand {
        Res::Complete(v) => of_value(alloc, op, true, &v),
        Res::Placeholder(v) => of_value(alloc, op, false, &v),
        Res::Incomplete => Ok(Res::Incomplete),
        Res::Fault(fault) => Ok(Res::Fault(fault)),
    }
}

/// The result where the operand has this value. The flag says that it is complete.
fn of_value(alloc: Global, op: &OneOp, complete: bool, value: &Value) -> Result<Res, NoMemory>
    ensures value { IfOk result (λ r. r ≡ outcome complete (one_value op.now value.now)) }
    ensures memory { IsErr result → GivesText op.now }
{
    match op {
        OneOp::Not => Ok(finish(complete, Ok(Value::Boolean(!truth(value))))),
        OneOp::Round => Ok(finish(complete, round(value))),
        OneOp::YearOf => Ok(finish(complete, Ok(Value::Int(year(value))))),
        OneOp::MonthOf => Ok(finish(complete, Ok(Value::Int(month_of(day_in(value)))))),
        OneOp::DayOf => Ok(finish(complete, Ok(Value::Int(day_of(day_in(value)))))),
        OneOp::Lookup(table) => Ok(finish(complete, Ok(looked_up(alloc, table, value)?))),
    }
}

/// A copy of what the table has for the value.
fn looked_up(alloc: Global, table: &LookupTable, value: &Value) -> Result<Value, NoMemory>
    ensures value { IfOk result (λ v. v ≡ value_for table.now value.now) }
    ensures memory { IsErr result → table.now.to ≡ types.Text }
{
    table.value_for(value).copy(alloc)
}

/// The amount in whole dollars.
fn round(value: &Value) -> Result<Value, ValueFault>
    ensures { result ≡ value_as Value.Dollar (rounded_dollar (dollar_in value.now)) }
{
    match round_dollar(dollar_in(value)) {
        Ok(amount) => Ok(Value::Dollar(amount)),
        Err(fault) => Err(fault),
    }
}

/// The day's year.
fn year(value: &Value) -> Whole
    ensures { result ≡ year_of (day_in value.now) }
{
    Whole::new(day_in(value).year()).unwrap()
}
