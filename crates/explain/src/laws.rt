// Laws of what a slot reads: itself and what those read that it reads. While its missing answers are missing, its result stays.
// Each function's contract is a law.
ghost use Rattle.explain.specs.Missing.{MissingKeep, ReadsAreRecursive};

/// A slot reads itself, and all that the slots read that it reads.
pub fn reads_are_recursive()
    ensures { ReadsAreRecursive }
{}

/// Under an extension of the answers in which a slot's missing answers are still missing, its result is the same.
pub fn missing_answers_keep_the_result()
    ensures { MissingKeep }
{}
