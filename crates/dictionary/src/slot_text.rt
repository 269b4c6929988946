// The paths of slots, printed.
ghost use Rattle.std.specs.Prelude.{◌≡◌, ◌+◌, ◌≤◌, ◌++◌, codes, decimal, length, option_map};
ghost use Rattle.fact_paths.specs.Paths.{slot_path_text};
ghost use Rattle.dictionary.specs.AcceptedParts.{accepted};
ghost use Rattle.dict_meaning.specs.SlotText.{IsSlot, slot_path_of, slot_text, text_of_path};

use crate::dictionary::Dictionary;
use fact_paths::{FactPath, Name};
use fact_values::Slot;
use itoa::Buffer;
use value_text::Line;

// Appends a slash and a name.
#[tactic(auto, using(value_text::proofs::EnumLemmas::name_short))]
fn print_name(name: &Name, out: &mut Line)
    requires { length out.old + 65 ≤ 1100 }
    ensures appended { out.new ≡ out.old ++ codes "/" ++ name.now }
    ensures short { length out.new ≤ length out.old + 65 }
{
    out.push(b"/");
    out.push(name.as_str().as_bytes());
}

// Appends a member, as `/#3`.
#[tactic(auto, using(value_text::proofs::Decimals::decimal_of_member))]
fn print_member(member: u32, out: &mut Line)
    requires small { member ≤ 1000000 }
    requires room { length out.old + 9 ≤ 1100 }
    ensures appended { out.new ≡ out.old ++ codes "/#" ++ decimal member }
    ensures short { length out.new ≤ length out.old + 9 }
{
    out.push(b"/#");
    let mut buffer = Buffer::new();
    out.push(buffer.format(member).as_bytes());
}

fn print_path(path: &FactPath, member: u32, out: &mut Line)
    requires small { member ≤ 1000000 }
    requires room { length out.old + 160 ≤ 1100 }
    ensures { out.new ≡ out.old ++ slot_path_text (slot_path_of member path.now) }
{
    match path {
        FactPath::Global(name) => print_name(name, out),
        FactPath::Member(collection, name) => {
            print_name(collection, out);
            print_member(member, out);
            print_name(name, out);
        }
    }
}

fn print_found(path: &Option<FactPath>, member: u32, out: &mut Line)
    requires small { member ≤ 1000000 }
    requires room { length out.old + 160 ≤ 1100 }
    ensures { out.new ≡ out.old ++ text_of_path (option_map (slot_path_of member) path.now) }
{
    match path {
        None => {}
        Some(path) => print_path(path, member, out),
    }
}

impl Dictionary {
    /// Appends the path of a slot, `/N`, or `/N/#K/M` of the member K. It takes no memory.
    pub fn print_slot(&self, slot: Slot, out: &mut Line)
        requires slot { IsSlot (accepted self.now).tree slot }
        requires room { length out.old + 160 ≤ 1100 }
        ensures { out.new ≡ out.old ++ slot_text (accepted self.now).tree slot }
    {
        match self.source().fact(slot.fact) {
            None => {}
            Some(fact) => print_found(&fact.path, slot.member, out),
        }
    }
}
