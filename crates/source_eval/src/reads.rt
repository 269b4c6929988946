// What a node that reads gives, and which slots it reads, from the facts that its path names.
ghost use Rattle.std.specs.Prelude.{◌≡◌, [], flat_map, IfOk, OnOk, option_and_then};
ghost use Rattle.dict_source.specs.Dictionary.{dictionary_view};
ghost use Rattle.dict_source.specs.Mentions.{condition_base};
ghost use Rattle.dict_source.specs.View.{literal_of, use_view};
ghost use Rattle.node_types.specs.StatedTypes.{type_at as type_of_fact};
ghost use Rattle.evaluation.specs.Reads.{sum_over, through_item};
ghost use Rattle.evaluation.specs.SlotsRead.{fields_read, item_read};
ghost use Rattle.three_state.specs.Results.{count_of, members_of};
ghost use Rattle.three_state.specs.declared.res.Res.TheVariants.{Complete};
ghost use Rattle.dict_meaning.specs.Dependencies.{collection, constant_value as value_of_constant, dependency, field_type as type_of_field, read_by, read_result, source_result};
ghost use Rattle.evaluation.specs.Results.{result_at};
ghost use Rattle.source_eval.specs.NodeReads.{dependency_reads, node_reads, reads_of_op, source_reads, target_slot};
ghost use Rattle.source_eval.specs.Noted.{Noted};

use crate::context::EvalContext;
use crate::notes::Notes;
use dict_meaning::EvalPosition;
use dict_source::{Constant, DictSource, PathUse, ReadOp, Targets};
use fact_paths::UsePath;
use fact_values::{FactType, NoMemory, Slot, Value};
use node_types::{constant_value, type_at};
use operations::{CountFold, ItemStep, SumFold, complete_test, item_step, members, size, taken};
use std::alloc::Global;
use three_state::Res;

/// The result of a constant. A text that spells no value counts as false.
pub fn read_constant<G: EvalContext>(
    alloc: Global,
    context: &G,
    constant: &Constant,
) -> Result<Res, NoMemory>
    ensures { IfOk result (λ r. r ≡ Complete (value_of_constant (G.meaning context.now).tree.enums
        (literal_of constant.now))) }
{
    match constant_value(alloc, context.source().enums(), constant)? {
        Some(value) => Ok(Res::Complete(value)),
        None => Ok(Res::Complete(Value::Boolean(false))),
    }
}

// Notes the slot of a target.
fn note<N: Notes>(notes: &mut N, fact: Option<u32>, member: u32) -> Result<(), NoMemory>
    ensures { OnOk result (Noted N.keeps (N.noted notes.old) (target_slot fact member) (N.noted notes.new)) }
{
    match fact {
        None => Ok(()),
        Some(fact) => notes.note(Slot { fact, member }),
    }
}

// Reads the slot of a target.
fn read_at<G: EvalContext, N: Notes>(
    alloc: Global,
    context: &G,
    fact: Option<u32>,
    member: u32,
    notes: &mut N,
) -> Result<Res, NoMemory>
    ensures value { IfOk result (λ r. r ≡ result_at (G.meaning context.now).results fact member) }
    ensures reads { OnOk result (Noted N.keeps (N.noted notes.old) (target_slot fact member) (N.noted notes.new)) }
{
    note(notes, fact, member)?;
    context.result_at(fact, member).copy(alloc)
}

// Reads the field of the member that an item names.
fn read_field<G: EvalContext, N: Notes>(
    alloc: Global,
    context: &G,
    item: &Res,
    field: Option<u32>,
    notes: &mut N,
) -> Result<Res, NoMemory>
    ensures value { IfOk result (λ r. r ≡ through_item item.now (result_at (G.meaning context.now).results field)) }
    ensures reads { OnOk result (Noted N.keeps (N.noted notes.old) (item_read item.now [] (target_slot field))
        (N.noted notes.new)) }
{
    match item_step(item) {
        ItemStep::Member(member, complete) => {
            let res = read_at(alloc, context, field, member, notes)?;
            Ok(taken(complete, res))
        }
        ItemStep::End(res) => Ok(res),
    }
}

// Reads an item, and the field of the member that it names.
fn read_through<G: EvalContext, N: Notes>(
    alloc: Global,
    context: &G,
    targets: Targets,
    member: u32,
    notes: &mut N,
) -> Result<Res, NoMemory>
    ensures value { IfOk result (λ r. r ≡ through_item (result_at (G.meaning context.now).results targets.first member)
        (result_at (G.meaning context.now).results targets.second)) }
    ensures reads { OnOk result (Noted N.keeps (N.noted notes.old)
        (item_read (result_at (G.meaning context.now).results targets.first member) (target_slot targets.first member)
        (target_slot targets.second)) (N.noted notes.new)) }
{
    note(notes, targets.first, member)?;
    let item = context.result_at(targets.first, member);
    read_field(alloc, context, item, targets.second, notes)
}

// The result that a path reads, where these are its targets.
fn read_dependency<G: EvalContext, N: Notes>(
    alloc: Global,
    context: &G,
    targets: Targets,
    at: EvalPosition,
    path: &UsePath,
    notes: &mut N,
) -> Result<Res, NoMemory>
    ensures value { IfOk result (λ r. r ≡ dependency (G.meaning context.now).results targets at path.now) }
    ensures reads { OnOk result (Noted N.keeps (N.noted notes.old) (dependency_reads (G.meaning context.now).results
        targets at path.now) (N.noted notes.new)) }
{
    match path {
        UsePath::Global(_) => read_at(alloc, context, targets.first, 0, notes),
        UsePath::Sibling(_) => read_at(alloc, context, targets.first, at.own(), notes),
        UsePath::Inner(_) => read_at(alloc, context, targets.first, at.inner(), notes),
        UsePath::Each(..) => Ok(Res::Incomplete),
        UsePath::Through(..) => read_through(alloc, context, targets, 0, notes),
        UsePath::SiblingThrough(..) => read_through(alloc, context, targets, at.own(), notes),
    }
}

fn field_type(source: &DictSource, field: Option<u32>) -> Option<FactType>
    ensures { result ≡ option_and_then (type_of_fact (dictionary_view source.now)) field }
{
    type_at(source, field?)
}

// The type of a CollectionSum's fields, which are whole numbers where the field has no type.
fn summed_type<G: EvalContext>(context: &G, targets: Targets) -> FactType
    ensures { result ≡ type_of_field (G.meaning context.now).tree targets }
{
    field_type(context.source(), targets.second).unwrap_or(FactType::Int)
}

// The sum of the field over the members.
fn read_sum<G: EvalContext>(context: &G, targets: Targets) -> Res
    ensures { result ≡ sum_over (type_of_field (G.meaning context.now).tree targets)
        (collection (G.meaning context.now).results targets) (result_at (G.meaning context.now).results
        targets.second) }
{
    let source = context.result_at(targets.first, 0);
    let mut fold = SumFold::new(summed_type(context, targets), source);
    for member in members(source) {
        fold.see(context.result_at(targets.second, *member));
    }
    fold.end()
}

// The number of members of which the field is true.
fn read_count<G: EvalContext>(context: &G, targets: Targets) -> Res
    ensures { result ≡ count_of (collection (G.meaning context.now).results targets)
        (result_at (G.meaning context.now).results targets.second) }
{
    let source = context.result_at(targets.first, 0);
    let mut fold = CountFold::new(source);
    for member in members(source) {
        fold.see(context.result_at(targets.second, *member));
    }
    fold.end()
}

// Notes the field of each member.
fn note_fields<N: Notes>(notes: &mut N, source: &Res, field: Option<u32>) -> Result<(), NoMemory>
    ensures { OnOk result (Noted N.keeps (N.noted notes.old) (flat_map (target_slot field) (members_of source.now))
        (N.noted notes.new)) }
{
    for member in members(source) {
        note(notes, field, *member)?;
    }
    Ok(())
}

// Notes the collection and the field of each of its members.
fn note_collection<G: EvalContext, N: Notes>(
    context: &G,
    targets: Targets,
    notes: &mut N,
) -> Result<(), NoMemory>
    ensures { OnOk result (Noted N.keeps (N.noted notes.old)
        (fields_read (collection (G.meaning context.now).results targets) (target_slot targets.first 0)
        (target_slot targets.second)) (N.noted notes.new)) }
{
    note(notes, targets.first, 0)?;
    note_fields(notes, context.result_at(targets.first, 0), targets.second)
}

fn read_path<G: EvalContext, N: Notes>(
    alloc: Global,
    context: &G,
    op: ReadOp,
    targets: Targets,
    at: EvalPosition,
    path: &UsePath,
    notes: &mut N,
) -> Result<Res, NoMemory>
    ensures value { IfOk result (λ r. r ≡ read_by op (G.meaning context.now).tree (G.meaning context.now).results
        targets at path.now) }
    ensures reads { OnOk result (Noted N.keeps (N.noted notes.old) (reads_of_op op (G.meaning context.now).results
        targets at path.now) (N.noted notes.new)) }
{
    match op {
        ReadOp::Dependency => read_dependency(alloc, context, targets, at, path, notes),
        ReadOp::IsComplete => {
            let res = read_dependency(alloc, context, targets, at, path, notes)?;
            Ok(complete_test(&res))
        }
        ReadOp::CollectionSize => {
            note(notes, targets.first, 0)?;
            Ok(size(context.result_at(targets.first, 0)))
        }
        ReadOp::CollectionSum => {
            note_collection(context, targets, notes)?;
            Ok(read_sum(context, targets))
        }
        ReadOp::Count => {
            note_collection(context, targets, notes)?;
            Ok(read_count(context, targets))
        }
    }
}

/// The result of a node that reads a path. The slots that it reads are noted.
pub fn read<G: EvalContext, N: Notes>(
    alloc: Global,
    context: &G,
    at: EvalPosition,
    op: ReadOp,
    used: &PathUse,
    notes: &mut N,
) -> Result<Res, NoMemory>
    ensures value { IfOk result (λ r. r ≡ read_result (G.meaning context.now).tree (G.meaning context.now).results
        (G.meaning context.now).fact at op (use_view used.now).path) }
    ensures reads { OnOk result (Noted N.keeps (N.noted notes.old) (node_reads (G.meaning context.now).tree
        (G.meaning context.now).results (G.meaning context.now).fact at op (use_view used.now).path) (N.noted notes.new)) }
{
    match used {
        PathUse::Spelled(path) => {
            let targets = context.source().targets(context.fact(), at.base(), path);
            read_path(alloc, context, op, targets, at, path, notes)
        }
        PathUse::Misspelled(_) => Ok(Res::Incomplete),
    }
}

/// The collection of a Filter or a Find. Its slot is noted.
pub fn read_source<'a, G: EvalContext, N: Notes>(
    context: &'a G,
    at: EvalPosition,
    used: &PathUse,
    notes: &mut N,
) -> Result<&'a Res, NoMemory>
    ensures value { IfOk result (λ r. r.now ≡ source_result (G.meaning context.now).tree (G.meaning context.now).results
        (G.meaning context.now).fact at (use_view used.now).path) }
    ensures reads { OnOk result (Noted N.keeps (N.noted notes.old) (source_reads (G.meaning context.now).tree
        (G.meaning context.now).fact at (use_view used.now).path) (N.noted notes.new)) }
{
    match used {
        PathUse::Spelled(path) => {
            let targets = context.source().targets(context.fact(), at.base(), path);
            note(notes, targets.first, 0)?;
            Ok(context.result_at(targets.first, 0))
        }
        PathUse::Misspelled(_) => Ok(context.result_at(None, 0)),
    }
}

/// The base of the condition of a Filter or a Find.
pub fn base_under<G: EvalContext>(context: &G, at: EvalPosition, used: &PathUse) -> u32
    ensures { result ≡ condition_base (G.meaning context.now).tree (G.meaning context.now).fact at.base (use_view used.now).path }
{
    match used {
        PathUse::Spelled(path) => context
            .source()
            .condition_base(context.fact(), at.base(), path),
        PathUse::Misspelled(_) => 0,
    }
}
