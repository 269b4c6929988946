// Laws of acceptance: bytes have one dictionary or one fault at most, and what a fact mentions comes before it. Each function's
// contract is a law.
ghost use Rattle.dictionary.specs.ByRank.{MentionedComesFirst};
ghost use Rattle.dictionary.specs.Faults.{AcceptedHasNoFault, OneDictionaryAtMost, OneFaultAtMost};

/// What is accepted has no fault, and bytes have one first fault at most.
pub fn the_fault_is_one()
    ensures none { AcceptedHasNoFault }
    ensures one { OneFaultAtMost }
{}

/// Bytes spell one dictionary at most.
pub fn the_dictionary_is_one()
    ensures { OneDictionaryAtMost }
{}

/// By rising rank, what a fact mentions comes before it.
pub fn mentions_come_first()
    ensures { MentionedComesFirst }
{}
