// The texts of members and of lists of them.
ghost use Rattle.std.specs.Prelude.{◌≡◌, ◌+◌, ◌*◌, ◌<◌, ◌≤◌, ◌∷◌, ◌++◌, length, IsTrue};
ghost use Rattle.std.specs.List.{list_all};
ghost use Rattle.fact_values.specs.Members.{IsMemberList, is_member};
ghost use Rattle.value_text.specs.MemberTexts.{printed_item, printed_members, printed_rest};

use crate::line::Line;
use fact_values::Members;
use itoa::Buffer;

/// Appends a member's number, as `#3`.
#[tactic(auto, using(crate::proofs::Decimals::decimal_of_member))]
pub(crate) fn print_item(member: u32, out: &mut Line)
    requires { length out.old + 11 ≤ 1100 }
    ensures appended { out.new ≡ out.old ++ printed_item member }
    ensures fits { length out.new ≤ length out.old + 11 }
    ensures short { member < 10000000 → length out.new ≤ length out.old + 8 }
{
    out.push(b"#");
    let mut buffer = Buffer::new();
    out.push(buffer.format(member).as_bytes());
}

// Appends a blank and a member.
fn print_next(member: u32, out: &mut Line)
    requires { length out.old + 12 ≤ 1100 }
    ensures appended { out.new ≡ out.old ++ 32 ∷ printed_item member }
    ensures short { member < 10000000 → length out.new ≤ length out.old + 9 }
{
    out.push(b" ");
    print_item(member, out);
}

// Appends members, each behind a blank.
fn print_rest(members: &[u32], out: &mut Line)
    requires room { length out.old + (9 * length members.now + 3) ≤ 1100 }
    requires members { IsTrue (list_all is_member members.now) }
    ensures appended { out.new ≡ out.old ++ printed_rest members.now }
    ensures short { length out.new ≤ length out.old + 9 * length members.now }
{
    for member in members {
        print_next(*member, out);
    }
}

/// Appends a list of members, as `[#1 #2]`.
pub(crate) fn print_members(members: &Members, out: &mut Line)
    requires { length out.old + 1024 ≤ 1100 }
    ensures appended { out.new ≡ out.old ++ printed_members members.now }
    ensures short { length out.new ≤ length out.old + 1024 }
{
    print_list(members.as_slice(), out);
}

fn print_list(members: &[u32], out: &mut Line)
    requires room { length out.old + 1024 ≤ 1100 }
    requires members { IsMemberList members.now }
    ensures appended { out.new ≡ out.old ++ printed_members members.now }
    ensures short { length out.new ≤ length out.old + 1024 }
{
    if members.is_empty() {
        out.push(b"[]");
        return;
    }
    out.push(b"[");
    print_item(members[0], out);
    print_rest(&members[1..], out);
    out.push(b"]");
}
