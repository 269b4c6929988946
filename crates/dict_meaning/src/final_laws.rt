// Laws of final results: no further answer changes one. Each function's contract is a law.
ghost use Rattle.dict_meaning.specs.Final.{FinalStays};

/// A final result is complete, with the same value under every extension of the answers.
pub fn final_results_stay()
    ensures { FinalStays }
{}
