// A relation of results: its name, its code and the closure that it runs; and the table of the relations that a host brings.
ghost use Rattle.std.specs.Prelude.{◌≡◌, ◌<◌, ◌^◌, Bool, length};
ghost use Rattle.fact_watch.specs.Says.{watch_says};

use fact_paths::Name;
use three_state::Res;

/// What a relation runs, on the result before and the one after.
pub type Says = Box<dyn Fn(&Res, &Res) -> bool>;

/// A relation, kept with the fact that it answers as its code says on every pair of results.
#[derive(Drop)]
pub struct Relation {
    pub name: Name,
    /// From 1 to 4.
    pub code: u32,
    says: Says,
    ghost callable: { (old : _) (new : _) → Says.pre says old new },
    ghost answers: { (old : _) (new : _) (answer : Bool) → Says.post says old new answer → answer
        ≡ watch_says code old.now new.now },
}

impl Relation {
    pub(crate) fn new(name: Name, code: u32, says: Says) -> Relation
        requires callable { (old : _) (new : _) → Says.pre says old new }
        requires answers { (old : _) (new : _) (answer : Bool) → Says.post says old new answer → answer
            ≡ watch_says code old.now new.now }
        ensures name { result.name ≡ name }
        ensures code { result.code ≡ code }
    {
        Relation { name, code, says }
    }

    /// What the relation answers.
    pub fn run(&self, old: &Res, new: &Res) -> bool
        ensures { result ≡ watch_says self.now.code old.now new.now }
    {
        (self.says)(old, new)
    }
}

/// Relations by name, in the order in which they were added. Contracts see their names and codes.
#[derive(Drop)]
pub struct WatchTable {
    pub relations: Vec<Relation>,
    pub ghost few: { length relations.items < 2 ^ 32 },
}
