// Puts the lines of open collections.
ghost use Rattle.std.specs.Prelude.{◌≡◌, ◌+◌, ◌*◌, ◌≤◌, ◌<◌, ◌++◌, ◌∷◌, [], length, IsTrue, Some};
ghost use Rattle.std.specs.List.{list_all};
ghost use Rattle.fact_values.specs.Members.{IsMemberList, is_member};
ghost use Rattle.value_text.specs.MemberTexts.{printed_item, printed_rest};
ghost use Rattle.answers.specs.Meaning.{answered};
ghost use Rattle.dictionary.specs.AcceptedParts.{accepted};
ghost use Rattle.dict_meaning.specs.Fits.{AnswersFit};
ghost use Rattle.evaluation.specs.Results.{slot};
ghost use Rattle.dict_meaning.specs.SlotText.{IsSlot};
ghost use Rattle.saved_text.specs.SavedText.{list_line, list_lines, lists};
ghost use Rattle.saved_text.specs.Writing.{WroteAs};
ghost use Rattle.std.specs.FinMap as map;

use crate::writing::put_line;
use answers::Answers;
use dictionary::Dictionary;
use fact_values::Slot;
use fg_io::{Failed, Sink};
use itoa::Buffer;
use value_text::Line;

// Appends a blank and a member, as ` #3`.
#[tactic(auto, using(value_text::proofs::Decimals::decimal_of_member))]
fn print_member(member: u32, out: &mut Line)
    requires number { IsTrue (is_member member) }
    requires room { length out.old + 9 ≤ 1100 }
    ensures appended { out.new ≡ out.old ++ 32 ∷ printed_item member }
    ensures short { length out.new ≤ length out.old + 9 }
{
    out.push(b" #");
    let mut buffer = Buffer::new();
    out.push(buffer.format(member).as_bytes());
}

// Appends members, each behind a blank.
fn print_members(members: &[u32], out: &mut Line)
    requires room { length out.old + 9 * length members.now ≤ 1100 }
    requires numbers { IsTrue (list_all is_member members.now) }
    ensures appended { out.new ≡ out.old ++ printed_rest members.now }
    ensures short { length out.new ≤ length out.old + 9 * length members.now }
{
    for member in members {
        print_member(*member, out);
    }
}

// Puts the line of an open collection.
fn put_list<K: Sink>(
    dict: &Dictionary,
    fact: u32,
    members: &[u32],
    out: &mut K,
) -> Result<(), Failed>
    requires collection { IsSlot (accepted dict.now).tree (slot fact 0) }
    requires members { IsMemberList members.now }
    ensures { WroteAs (K.output out.old) (K.output out.new)
        (list_line (accepted dict.now).tree fact members.now ∷ []) result }
{
    let _accepted = dict.source();
    let mut line = Line::new();
    line.push(b"list ");
    dict.print_slot(Slot { fact, member: 0 }, &mut line);
    print_members(members, &mut line);
    put_line(line.bytes(), b"", out)
}

// Puts the line of a fact that is an open collection.
fn put_if_open<K: Sink>(
    dict: &Dictionary,
    answers: &Answers,
    fact: u32,
    out: &mut K,
) -> Result<(), Failed>
    requires { AnswersFit (accepted dict.now).tree (answered answers.now) }
    ensures { WroteAs (K.output out.old) (K.output out.new)
        (list_lines (accepted dict.now).tree (answered answers.now) fact) result }
{
    let _accepted = dict.source();
    match answers.members(fact) {
        None => Ok(()),
        Some(members) => put_list(dict, fact, members, out),
    }
}

/// Puts the lines of all open collections.
pub fn put_lists<K: Sink>(dict: &Dictionary, answers: &Answers, out: &mut K) -> Result<(), Failed>
    requires { AnswersFit (accepted dict.now).tree (answered answers.now) }
    ensures { WroteAs (K.output out.old) (K.output out.new)
        (lists (accepted dict.now).tree (answered answers.now)) result }
{
    let count = dict.fact_count();
    let mut done = 0;
    while done < count {
        done += 1;
        match put_if_open(dict, answers, done, out) {
            Err(failed) => return Err(failed),
            Ok(()) => {}
        }
    }
    Ok(())
}
