// Laws of readers: a slot feeds the slots of its fact's readers, and readers are facts. Each function's contract is a law.
ghost use Rattle.dep_index.specs.Laws.{FeedsByReaders, ReadersAreFacts};

/// A slot feeds another exactly where the fact of the other is among its fact's readers and, where
/// this one's mentions are all of the same member, the members are equal.
pub fn slots_feed_readers()
    ensures { FeedsByReaders }
{}

/// Readers are facts of the dictionary.
pub fn readers_are_facts()
    ensures { ReadersAreFacts }
{}
