//! The limits on nodes, on text behind aliases and on nesting.

ghost use Rattle.al_base.specs.Limits.{deepest_collection};
ghost use Rattle.al_yaml_tree.specs.Limits.{broken_limit};
ghost use Rattle.al_yaml_parts.specs.Reads.{with_nodes, state_of};
ghost use Rattle.al_yaml_tree.specs.Reading.{start_of};
ghost use Rattle.std.specs.Prelude.{◌≡◌, ◌≤◌, ◌∷◌, [], IfErr, IfOk, MatchResult};

use crate::anchors::Anchors;
use al_base::YamlCode;
use al_base::limits::{DEEPEST_COLLECTION, MOST_ALIAS_TEXT, MOST_NODES};
use al_scalar::FaultAt;

/// What was read so far: the number of nodes, including those behind aliases; the bytes of texts
/// behind aliases; and the anchors.
#[derive(Drop)]
pub struct State {
    pub nodes: u32,
    pub text: u32,
    pub anchors: Anchors,
}

impl State {
    /// Counts nodes that start at an offset. The depth is that of a collection that starts there,
    /// and 0 for a scalar.
    #[inline(always)]
    pub fn start(&mut self, at: usize, more: u32, depth: u32) -> Result<(), FaultAt>
        ensures fault { IfErr result (λ f. f.at ≡ at) }
        ensures limits { MatchResult result
            (λ _. broken_limit self.old.nodes self.old.text (start_of at more depth ∷ []) ≡ None)
            (λ f. broken_limit self.old.nodes self.old.text (start_of at more depth ∷ [])
            ≡ Some f) }
        ensures depth { IfOk result (λ _. depth ≤ deepest_collection) }
        ensures state { IfOk result (λ _. state_of self.new ≡ with_nodes more (state_of self.old)) }
    {
        let nodes = self.nodes.saturating_add(more);
        if nodes > MOST_NODES || self.text > MOST_ALIAS_TEXT {
            return Err(FaultAt::new(YamlCode::TooManyNodes, at));
        }
        if depth > DEEPEST_COLLECTION {
            return Err(FaultAt::new(YamlCode::NestingTooDeep, at));
        }
        self.nodes = nodes;
        Ok(())
    }
}
