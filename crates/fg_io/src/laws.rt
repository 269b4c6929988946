// Laws of devices: counts of faults, what is answered of known contents and of a missing name, and texts without a rest. Each
// function's contract is a law.
ghost use Rattle.fg_io.specs.Laws.{RoseWhereItGrew, ContentsAreAnswered, MissingIsFault, SentWithoutRestIsWhole};

/// A count rose where it grew, or stands at the greatest `u64` now.
pub fn rose_where_it_grew()
    ensures { RoseWhereItGrew }
{}

/// Known contents are answered as they are, or not at all; they are refused as too long only where they are too long.
pub fn contents_are_answered()
    ensures { ContentsAreAnswered }
{}

/// A name that isn't there is a fault, unless memory runs out.
pub fn missing_is_fault()
    ensures { MissingIsFault }
{}

/// A text with no rest was written whole.
pub fn sent_without_rest_is_whole()
    ensures { SentWithoutRestIsWhole }
{}
