// The texts of replies and refusals. Nothing here takes memory.
ghost use Rattle.std.specs.Prelude.{◌≡◌, ◌+◌, ◌≤◌, ◌++◌, [], codes, length};
ghost use Rattle.dictionary.specs.AcceptedParts.{accepted};
ghost use Rattle.dict_meaning.specs.Final.{is_final as is_final_in};
ghost use Rattle.dict_meaning.specs.Plain.{plain};
ghost use Rattle.graph_session.specs.Rules.{rules, tree_of};
ghost use Rattle.graph_session.specs.SessionView.{session_state};
ghost use Rattle.three_state.specs.declared.res.Res.TheVariants.{Complete};
ghost use Rattle.session_lines.specs.Replies.{IsResPrinted, asked_text, fault_text as text_of_fault, final_text, refusal_name as name_of_refusal, refusal_place, refusal_text, reply_text, result_text};

use crate::numbered::print_numbered;
use dictionary::FactEngine;
use fact_values::{Slot, Value, ValueFault};
use graph_session::{Refusal, Reply, Session};
use placeholder_laws::is_final;
use three_state::Res;
use value_text::{EnumLists, Line, print};

fn fault_text(fault: ValueFault) -> &'static str
    ensures text { result.now ≡ text_of_fault fault }
    ensures short { length result.now ≤ 100 }
{
    match fault {
        ValueFault::Overflow => "fault overflow",
        ValueFault::ZeroDivide => "fault zero-divide",
    }
}

// Prints a result into an empty line.
#[inline(always)]
fn print_res(res: &Res, lists: &EnumLists, line: &mut Line)
    requires listed { IsResPrinted lists.now res.now }
    requires empty { line.old ≡ [] }
    ensures text { line.new ≡ result_text lists.now res.now }
    ensures short { length line.new ≤ 1050 }
{
    match res {
        Res::Complete(value) => {
            line.push("complete ".as_bytes());
            print(value, lists, line);
        }
        Res::Placeholder(value) => {
            line.push("placeholder ".as_bytes());
            print(value, lists, line);
        }
        Res::Incomplete => line.push("incomplete".as_bytes()),
        Res::Fault(fault) => line.push(fault_text(*fault).as_bytes()),
    }
}

// Prints into an empty line what is said of a complete result: its value, where it is final.
fn print_value_where(value: &Value, final_value: bool, lists: &EnumLists, line: &mut Line)
    requires listed { IsResPrinted lists.now (Complete value.now) }
    requires empty { line.old ≡ [] }
    ensures text { line.new ≡ final_text lists.now final_value (Complete value.now) }
    ensures short { length line.new ≤ 1050 }
{
    if final_value {
        line.push("final ".as_bytes());
        print(value, lists, line);
    } else {
        line.push("open".as_bytes());
    }
}

// Prints into an empty line whether a result is final.
fn print_finality(res: &Res, final_value: bool, lists: &EnumLists, line: &mut Line)
    requires listed { IsResPrinted lists.now res.now }
    requires empty { line.old ≡ [] }
    ensures text { line.new ≡ final_text lists.now final_value res.now }
    ensures short { length line.new ≤ 1050 }
{
    match res {
        Res::Complete(value) => print_value_where(value, final_value, lists, line),
        Res::Placeholder(_) => line.push("open".as_bytes()),
        Res::Incomplete => line.push("open".as_bytes()),
        Res::Fault(_) => line.push("open".as_bytes()),
    }
}

// Prints the result of a slot into an empty line.
fn print_result<E: FactEngine>(session: &Session<E>, slot: Slot, line: &mut Line)
    requires { line.old ≡ [] }
    ensures text { line.new ≡ asked_text (result_text (tree_of (rules session.now.dict)).enums)
        (plain (accepted session.now.dict) session.now.timeline.now slot) (codes "incomplete") }
    ensures short { length line.new ≤ 1050 }
{
    let _answers = session.answers();
    let source = session.dict().source();
    match session.result(slot) {
        None => line.push("incomplete".as_bytes()),
        Some(res) => print_res(res, source.enums(), line),
    }
}

// Prints into an empty line whether the result of a slot is final.
fn print_final<E: FactEngine>(session: &Session<E>, slot: Slot, line: &mut Line)
    requires { line.old ≡ [] }
    ensures text { line.new ≡ asked_text (final_text (tree_of (rules session.now.dict)).enums
        (is_final_in (accepted session.now.dict) session.now.timeline.now slot))
        (plain (accepted session.now.dict) session.now.timeline.now slot) (codes "open") }
    ensures short { length line.new ≤ 1050 }
{
    let _answers = session.answers();
    let source = session.dict().source();
    match session.result(slot) {
        None => line.push("open".as_bytes()),
        Some(res) => print_finality(res, is_final(session, slot), source.enums(), line),
    }
}

/// Prints into an empty line what a session says, without its newline. The session stands as the command left it.
pub fn print_reply<E: FactEngine>(session: &Session<E>, reply: Reply, line: &mut Line)
    requires { line.old ≡ [] }
    ensures text { line.new ≡ reply_text (rules session.now.dict) (session_state session.now) reply }
    ensures short { length line.new ≤ 1050 }
{
    match reply {
        Reply::Done => line.push("ok".as_bytes()),
        Reply::Added(member) => print_numbered("ok #", member as u64, line),
        Reply::Answer(slot) => print_result(session, slot, line),
        Reply::FinalAsked(slot) => print_final(session, slot, line),
        Reply::Stamp(number) => print_numbered("stamp ", number, line),
        Reply::Touched(number) => print_numbered("touched ", number, line),
        Reply::MissingAsked(_) => {}
        Reply::WatchAsked(_) => {}
        Reply::UnwatchAsked(_) => {}
        Reply::Quit => {}
    }
}

fn refusal_name(refusal: Refusal) -> &'static str
    ensures text { result.now ≡ name_of_refusal refusal }
    ensures short { length result.now ≤ 20 }
{
    match refusal {
        Refusal::UnknownFact => "3 UnknownFact",
        Refusal::NoMember => "4 NoMember",
        Refusal::WrongKind => "5 WrongKind",
        Refusal::BadValue => "6 BadValue",
        Refusal::Limit(_) => "7 Limit",
        Refusal::Check(_) => "8 Check",
        Refusal::Full => "9 Full",
        Refusal::AlreadyOpen => "10 AlreadyOpen",
        Refusal::NotAnswered => "11 NotAnswered",
        Refusal::NoOverride => "12 NoOverride",
        Refusal::NothingToUndo => "13 NothingToUndo",
        Refusal::NothingToRedo => "14 NothingToRedo",
        Refusal::NoStamps => "15 NoStamps",
        Refusal::NoMemory => "",
    }
}

// The place of the limit that refuses.
fn print_place(refusal: Refusal, line: &mut Line)
    requires { length line.old ≤ 100 }
    ensures text { line.new ≡ line.old ++ refusal_place refusal }
    ensures short { length line.new ≤ length line.old + 50 }
{
    match refusal {
        Refusal::Limit(place) => print_numbered(" ", place as u64, line),
        Refusal::Check(place) => print_numbered(" ", place as u64, line),
        Refusal::UnknownFact => {}
        Refusal::NoMember => {}
        Refusal::WrongKind => {}
        Refusal::BadValue => {}
        Refusal::Full => {}
        Refusal::AlreadyOpen => {}
        Refusal::NotAnswered => {}
        Refusal::NoOverride => {}
        Refusal::NothingToUndo => {}
        Refusal::NothingToRedo => {}
        Refusal::NoStamps => {}
        Refusal::NoMemory => {}
    }
}

/// Prints into an empty line why a command is refused, without its newline: the number of the refusal, its name, and the place of
/// the limit that refuses. Want of memory has neither number nor name, and is written nowhere.
pub fn print_refusal(refusal: Refusal, line: &mut Line)
    requires { line.old ≡ [] }
    ensures text { line.new ≡ refusal_text refusal }
    ensures short { length line.new ≤ 1050 }
{
    line.push("refused ".as_bytes());
    line.push(refusal_name(refusal).as_bytes());
    print_place(refusal, line);
}
