// Why a session isn't begun, and the same as numbers for C.
ghost use Rattle.std.specs.Prelude.{◌≡◌};
ghost use Rattle.fact_graph_c.specs.Faults.{dictionary_fault, fault_numbers, fault_with};

use dictionary::DictFault;

/// What a field of a fault is where the fault has no such number.
pub const ABSENT: u32 = u32::MAX;

/// Why a session isn't begun.
#[derive(Clone, Copy)]
pub enum NotBegun {
    /// The dictionary has this first fault, or there was no memory.
    Dictionary(DictFault),
    /// The saved text is refused at the line of this number, from 1. The number is 0 where the text is too long.
    Saved(u32),
    /// The words are those of no dictionary that comes with the library.
    Unknown,
}

/// The same as numbers.
#[repr(C)]
#[derive(Clone, Copy)]
pub struct Fault {
    /// 0 where there is none, from 1 to 14 that of a dictionary, 15 for want of memory, 16 for a saved text, 17 for words
    /// that name no dictionary.
    pub number: u32,
    /// The fact at fault, from 1.
    pub fact: u32,
    /// The node at fault.
    pub node: u32,
    /// What there are too many of.
    pub what: u32,
    /// The line of the saved text, from 1, or 0.
    pub line: u32,
}

fn plain(number: u32) -> Fault
    ensures { result ≡ fault_with number ABSENT ABSENT ABSENT ABSENT }
{
    Fault {
        number,
        fact: ABSENT,
        node: ABSENT,
        what: ABSENT,
        line: ABSENT,
    }
}

fn at_fact(number: u32, fact: u32) -> Fault
    ensures { result ≡ fault_with number fact ABSENT ABSENT ABSENT }
{
    Fault {
        fact,
        ..plain(number)
    }
}

fn at_node(number: u32, fact: u32, node: u32) -> Fault
    ensures { result ≡ fault_with number fact node ABSENT ABSENT }
{
    Fault {
        node,
        ..at_fact(number, fact)
    }
}

fn of_kind(number: u32, what: u32) -> Fault
    ensures { result ≡ fault_with number ABSENT ABSENT what ABSENT }
{
    Fault {
        what,
        ..plain(number)
    }
}

fn at_line(number: u32, line: u32) -> Fault
    ensures { result ≡ fault_with number ABSENT ABSENT ABSENT line }
{
    Fault {
        line,
        ..plain(number)
    }
}

/// No fault.
pub fn no_fault() -> Fault
    ensures { result ≡ fault_with 0 ABSENT ABSENT ABSENT ABSENT }
{
    plain(0)
}

/// The number of a dictionary's fault, and where it is.
pub fn fault_of_dictionary(fault: DictFault) -> Fault
    ensures { result ≡ dictionary_fault fault }
{
    match fault {
        DictFault::TooLong => plain(1),
        DictFault::NotJson => plain(2),
        DictFault::Shape(fact) => at_fact(3, fact),
        DictFault::TooMany(what) => of_kind(4, what),
        DictFault::TooDeep(fact) => at_fact(5, fact),
        DictFault::BadPath(fact) => at_fact(6, fact),
        DictFault::DuplicatePath(fact) => at_fact(7, fact),
        DictFault::NoCollection(fact) => at_fact(8, fact),
        DictFault::UnknownPath(fact) => at_fact(9, fact),
        DictFault::WrongPlace(fact) => at_fact(10, fact),
        DictFault::UnknownCheck(fact) => at_fact(11, fact),
        DictFault::IllTyped(fact, node) => at_node(12, fact, node),
        DictFault::BadLimit(fact) => at_fact(13, fact),
        DictFault::Cycle(fact) => at_fact(14, fact),
        DictFault::NoMemory => plain(15),
    }
}

/// Why a session isn't begun, as numbers.
pub fn fault_of(why: NotBegun) -> Fault
    ensures { result ≡ fault_numbers why }
{
    match why {
        NotBegun::Dictionary(fault) => fault_of_dictionary(fault),
        NotBegun::Saved(line) => at_line(16, line),
        NotBegun::Unknown => plain(17),
    }
}
