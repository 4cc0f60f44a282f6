//! What holds of the definitions, as the contract of a function that does nothing.
ghost use Rattle.ep_names.specs.Law.{GivenIsLowest};

/// The name that the machine gives to what asks for any has the lowest number from 32,768 to 60,999 that isn't taken
/// in its space, and none is given exactly if each of them is taken. This does nothing: its contract is the law, of
/// whatever names are taken.
pub fn given_is_lowest()
    ensures { GivenIsLowest }
{}
