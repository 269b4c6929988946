// Laws of the definitions. Each function's contract is the theorem.
ghost use Rattle.text_checks.specs.Places.{NoPlaceHasNoName, PlaceHasItsName, PlaceIsFirst};

/// The place of a name has that name and is the first, and a name without a place isn't there.
pub fn places_have_their_names()
    ensures name { PlaceHasItsName }
    ensures first { PlaceIsFirst }
    ensures none { NoPlaceHasNoName }
{}
