//! Values below paths of keys.
ghost use Rattle.std.specs.Prelude.{◌≡◌, ◌∷◌, [], map, option_map};
ghost use Rattle.al_tree.specs.Declarations as declarations;
ghost use Rattle.al_tree.specs.Values.{value_below};
ghost use Rattle.al_yaml_tree.specs.View.{view};

use crate::values::{items_under, value};
use al_yaml_tree::Node;

/// The value below two keys, the second in the mapping under the first; `None` if there is none.
/// Keys are compared exactly; of equal keys the first counts.
pub fn value_below_two<'a>(node: &'a Node, first: &str, second: &str) -> Option<&'a Node>
    ensures { option_map (λ n. view n.now) result
        ≡ value_below (first.now ∷ second.now ∷ []) (view node.now) }
{
    value(value(node, first)?, second)
}

/// The value below three keys, as [`value_below_two`] finds it.
pub fn value_below_three<'a>(
    node: &'a Node,
    first: &str,
    second: &str,
    third: &str,
) -> Option<&'a Node>
    ensures { option_map (λ n. view n.now) result
        ≡ value_below (first.now ∷ second.now ∷ third.now ∷ []) (view node.now) }
{
    value_below_two(value(node, first)?, second, third)
}

/// Whether a node has a value under a key, null or not.
pub fn has_value(node: &Node, key: &str) -> bool
    ensures { result ≡ declarations.has_value key.now (view node.now) }
{
    value(node, key).is_some()
}

/// Whether the root of an action says that it is composite: `runs.using` is `composite`, compared
/// exactly.
pub fn is_composite(root: &Node) -> bool
    ensures { result ≡ declarations.is_composite (view root.now) }
{
    value_below_two(root, "runs", "using")
        .and_then(|using| using.scalar())
        .is_some_and(|scalar| scalar.text() == b"composite".as_slice())
}

/// The steps of an action, in order; none where it has no sequence of steps.
pub fn action_steps(root: &Node) -> &[Node]
    ensures { map view result.now ≡ declarations.action_steps (view root.now) }
{
    value(root, "runs").map_or(&[], |runs| items_under(runs, "steps"))
}
