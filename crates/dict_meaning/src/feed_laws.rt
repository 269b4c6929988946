// Laws of the slots that feed a slot: its fact mentions their facts, and these are of lower rank. Each function's contract is a
// law.
ghost use Rattle.dict_meaning.specs.Feeds.{FeedsByMentions, FeedsFall};

/// A slot feeds those whose facts mention its fact and, where each such mention is of the same member, that have its member.
pub fn slots_feed_by_mentions()
    ensures { FeedsByMentions }
{}

/// What feeds a slot is of lower rank.
pub fn feeding_slots_are_lower()
    ensures { FeedsFall }
{}
