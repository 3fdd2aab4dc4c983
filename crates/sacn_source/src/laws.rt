//! Laws of a source over its definitions alone. They cost nothing when they run.
ghost use Rattle.sacn_source.specs.Calls.{StepsAreTheList};

/// Over any list of orders and polls from the start of a life, the core's steps answer what the list
/// of earlier accepted orders and of the datagrams given alone says.
pub fn steps_are_the_list()
    ensures { StepsAreTheList }
{}
