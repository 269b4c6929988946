// A check of texts: its name, its code and the closure that it runs; and the table of the checks that a host brings.
ghost use Rattle.std.specs.Prelude.{◌≡◌, ◌<◌, ◌≤◌, ◌^◌, Bool, length};
ghost use Rattle.text_checks.specs.Checks.{check_says};

use fact_paths::Name;

/// What a check runs.
pub type Test = Box<dyn Fn(&str) -> bool>;

/// A check, kept with the fact that it answers as its code says on every text of at most 1,000
/// bytes.
#[derive(Drop)]
pub struct Check {
    pub name: Name,
    /// From 1 to 4.
    pub code: u32,
    test: Test,
    ghost callable: { (text : _) → length text.now ≤ 1000 → Test.pre test text },
    ghost says: { (text : _) (answer : Bool) → length text.now ≤ 1000
        → Test.post test text answer → answer ≡ check_says code text.now },
}

impl Check {
    pub(crate) fn new(name: Name, code: u32, test: Test) -> Check
        requires callable { (text : _) → length text.now ≤ 1000 → Test.pre test text }
        requires says { (text : _) (answer : Bool) → length text.now ≤ 1000
            → Test.post test text answer → answer ≡ check_says code text.now }
        ensures name { result.name ≡ name }
        ensures code { result.code ≡ code }
    {
        Check { name, code, test }
    }

    /// What the check answers.
    pub fn run(&self, text: &str) -> bool
        requires { length text.now ≤ 1000 }
        ensures { result ≡ check_says self.now.code text.now }
    {
        (self.test)(text)
    }
}

/// Checks by name, in the order in which they were added. Contracts see their names and codes.
#[derive(Drop)]
pub struct CheckTable {
    pub checks: Vec<Check>,
    pub ghost few: { length checks.items < 2 ^ 32 },
}
