//! Comparing what calls name.

use crate::lint::Target;

/// Two calls are equal if they have the same candidates, in the same order.
impl PartialEq for Target {
    ghost use Rattle.al_lint.specs.Targets.{is_same_target};
    ghost use Rattle.al_lint.specs.Proofs.Targets.{target_laws};

    ghost eq = { is_same_target };

    ghost laws = { target_laws };

    fn eq(&self, other: &Target) -> bool {
        match (self, other) {
            (Target::Only(path), Target::Only(again)) => path.as_str() == again.as_str(),
            (Target::FirstOf(first, second), Target::FirstOf(again, second_again)) => {
                first.as_str() == again.as_str() && second.as_str() == second_again.as_str()
            }
            _ => false,
        }
    }
}
