// Laws of folds: operands, fields and cases one by one give what the node gives of the whole list. Each function's contract is a
// law.
ghost use Rattle.operations.specs.Laws.{CountFolds, FilterFolds, FindSteps, ItemSteps, KeptAreMembers, ManyFolds, SumFolds, SwitchSteps};

/// A fold that saw the operands in their order ends with the result of the node.
pub fn many_folds_give_the_nodes()
    ensures { ManyFolds }
{}

/// A fold that saw the collection, and then the fields of its members, ends with the result of the node.
pub fn field_folds_give_the_nodes()
    ensures sum { SumFolds }
    ensures count { CountFolds }
{}

/// Conditions that are judged in their order, up to a case that is taken or an end, give the result of a Switch or a Find.
pub fn case_steps_give_the_nodes()
    ensures switch { SwitchSteps }
    ensures find { FindSteps }
{}

/// A fold that saw the collection, and then the conditions at its members, ends with the result of a Filter, whose members are a
/// list of members.
pub fn filter_folds_give_the_nodes()
    ensures filter { FilterFolds }
    ensures members { KeptAreMembers }
{}

/// The field where an item leads, as a placeholder at most where the item rests on one, is the result of a Dependency through it.
pub fn item_steps_give_dependencies()
    ensures { ItemSteps }
{}
