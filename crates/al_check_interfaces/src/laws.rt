//! Laws of the calls and the interface of any file.
ghost use Rattle.al_check_interfaces.specs.Equality.{EqualAreSame, SameAreEqual};
ghost use Rattle.al_check_interfaces.specs.Laws.{CallsLie};
ghost use Rattle.al_check_interfaces.specs.Placeless.{ShowsNoPlaces, ShowsNothingElse};

/// The values of `uses` and the steps and jobs that call lie in the file if the tree does. Does
/// nothing at run time.
pub fn calls_of_trees()
    ensures { CallsLie }
{}

/// An interface stays the same if only spans change, and an input or a secret if only other keys
/// than `required`, `default` and `type` do, such as a description. Does nothing at run time.
pub fn interfaces_of_trees()
    ensures places { ShowsNoPlaces }
    ensures others { ShowsNothingElse }
{}

/// Interfaces compare equal if and only if they are equal. Does nothing at run time.
pub fn equal_interfaces()
    ensures same { EqualAreSame }
    ensures equal { SameAreEqual }
{}
