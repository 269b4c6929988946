// The lines that say whether a dictionary is accepted, what its fault is, and where a saved text is refused. Nothing here takes
// memory.
ghost use Rattle.std.specs.Prelude.{◌≡◌, ◌+◌, ◌≤◌, [], ◌++◌, length, codes};
ghost use Rattle.interview_ends.specs.FaultLines.{accepted_line, at_fact, fault_line, fault_name as name_of_fault, fault_place, saved_refused_line};
ghost use Rattle.session_lines.specs.Replies.{numbered};

use dictionary::DictFault;
use session_lines::print_numbered;
use value_text::Line;

fn fault_name(fault: DictFault) -> &'static str
    ensures text { result.now ≡ name_of_fault fault }
    ensures short { length result.now ≤ 20 }
{
    match fault {
        DictFault::TooLong => "1 TooLong",
        DictFault::NotJson => "2 NotJson",
        DictFault::Shape(_) => "3 Shape",
        DictFault::TooMany(_) => "4 TooMany",
        DictFault::TooDeep(_) => "5 TooDeep",
        DictFault::BadPath(_) => "6 BadPath",
        DictFault::DuplicatePath(_) => "7 DuplicatePath",
        DictFault::NoCollection(_) => "8 NoCollection",
        DictFault::UnknownPath(_) => "9 UnknownPath",
        DictFault::WrongPlace(_) => "10 WrongPlace",
        DictFault::UnknownCheck(_) => "11 UnknownCheck",
        DictFault::IllTyped(_, _) => "12 IllTyped",
        DictFault::BadLimit(_) => "13 BadLimit",
        DictFault::Cycle(_) => "14 Cycle",
        DictFault::NoMemory => "",
    }
}

fn print_fact(fact: u32, line: &mut Line)
    requires { length line.old + 50 ≤ 1100 }
    ensures text { line.new ≡ line.old ++ at_fact fact }
    ensures short { length line.new ≤ length line.old + 50 }
{
    print_numbered(" fact ", fact as u64, line);
}

fn print_node(fact: u32, node: u32, line: &mut Line)
    requires { length line.old + 100 ≤ 1100 }
    ensures text { line.new ≡ line.old ++ (at_fact fact ++ numbered (codes " node ") node) }
    ensures short { length line.new ≤ length line.old + 100 }
{
    print_fact(fact, line);
    print_numbered(" node ", node as u64, line);
}

// Where the fault is.
fn print_place(fault: DictFault, line: &mut Line)
    requires { length line.old + 100 ≤ 1100 }
    ensures text { line.new ≡ line.old ++ fault_place fault }
    ensures short { length line.new ≤ length line.old + 100 }
{
    match fault {
        DictFault::TooLong => {}
        DictFault::NotJson => {}
        DictFault::Shape(fact) => print_fact(fact, line),
        DictFault::TooMany(what) => print_numbered(" what ", what as u64, line),
        DictFault::TooDeep(fact) => print_fact(fact, line),
        DictFault::BadPath(fact) => print_fact(fact, line),
        DictFault::DuplicatePath(fact) => print_fact(fact, line),
        DictFault::NoCollection(fact) => print_fact(fact, line),
        DictFault::UnknownPath(fact) => print_fact(fact, line),
        DictFault::WrongPlace(fact) => print_fact(fact, line),
        DictFault::UnknownCheck(fact) => print_fact(fact, line),
        DictFault::IllTyped(fact, node) => print_node(fact, node, line),
        DictFault::BadLimit(fact) => print_fact(fact, line),
        DictFault::Cycle(fact) => print_fact(fact, line),
        DictFault::NoMemory => {}
    }
}

/// Prints into an empty line that a dictionary is refused for this fault.
pub fn print_fault(fault: DictFault, line: &mut Line)
    requires { line.old ≡ [] }
    ensures { line.new ≡ fault_line fault }
{
    line.push("dictionary refused ".as_bytes());
    line.push(fault_name(fault).as_bytes());
    print_place(fault, line);
    line.push(b"\n");
}

/// Prints into an empty line that a dictionary is accepted, with so many facts and nodes.
pub fn print_accepted(facts: u32, nodes: u32, line: &mut Line)
    requires { line.old ≡ [] }
    ensures { line.new ≡ accepted_line facts nodes }
{
    print_numbered("dictionary accepted ", facts as u64, line);
    print_numbered(" facts ", nodes as u64, line);
    line.push(" nodes".as_bytes());
    line.push(b"\n");
}

/// Prints into an empty line that a saved text is refused at the line of this number.
pub fn print_saved_refused(number: u32, line: &mut Line)
    requires { line.old ≡ [] }
    ensures { line.new ≡ saved_refused_line number }
{
    print_numbered("saved refused line ", number as u64, line);
    line.push(b"\n");
}
