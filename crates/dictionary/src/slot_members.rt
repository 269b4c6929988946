// The members at which a fact has its slots.
ghost use Rattle.std.specs.Prelude.{◌≡◌};
ghost use Rattle.answers.specs.Meaning.{answered};
ghost use Rattle.dict_meaning.specs.Slots.{members_of_home as members_at};

use answers::Answers;

/// The members at which a fact of this home has a slot: 0 for a global fact, and else those of its collection.
pub fn members_of_home(answers: &Answers, home: u32) -> &[u32]
    ensures { result.now ≡ members_at (answered answers.now) home }
{
    if home == 0 {
        return &[0];
    }
    match answers.members(home) {
        None => &[],
        Some(members) => members,
    }
}
