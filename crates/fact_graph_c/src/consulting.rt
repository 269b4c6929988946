// Which lines ask a check of texts or a relation of results. Most ask none, and so a table that has none serves them, which takes
// no memory.
ghost use Rattle.std.specs.Prelude.{◌≡◌, false, IsTrue};
ghost use Rattle.script_lines.specs.Parsing.{heard_in};
ghost use Rattle.session_lines.specs.Tables.{heard_asks_checks};
ghost use Rattle.fact_graph_c.specs.Consulting.{AsksNoRelation, is_byte as is_the_byte, may_set as sets_maybe, may_watch as watches_maybe};

use fact_watch::Watches;

// Whether there is a byte, and it is this one.
fn is_byte(found: Option<u8>, byte: u8) -> bool
    ensures { result ≡ is_the_byte byte found }
{
    match found {
        Some(b) => b == byte,
        None => false,
    }
}

// Whether the line may set an answer.
fn may_set(line: &[u8]) -> bool
    ensures { result ≡ sets_maybe line.now }
{
    is_byte(line.first().copied(), b's') && is_byte(line.get(1).copied(), b'e')
}

// Whether the line may put a watch or take one out.
fn may_watch(line: &[u8]) -> bool
    ensures { result ≡ watches_maybe line.now }
{
    is_byte(line.first().copied(), b'w') || is_byte(line.get(2).copied(), b'w')
}

/// Whether the line asks no check: it sets no answer.
pub fn asks_no_check(line: &[u8]) -> bool
    ensures { IsTrue result → heard_asks_checks (heard_in line.now) ≡ false }
{
    !may_set(line)
}

/// Whether the line asks no relation: nothing is watched, and it puts no watch and takes none out.
pub fn asks_no_relation(watches: &Watches, line: &[u8]) -> bool
    ensures { IsTrue result → AsksNoRelation watches.now.watched line.now }
{
    if watches.len() > 0 {
        return false;
    }
    !may_watch(line)
}
