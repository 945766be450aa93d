//! Accessors of nodes, which look through sharing.

ghost use Rattle.al_scalar.specs.Scalar.{text_of};
ghost use Rattle.std.specs.Option.{option_copied};
ghost use Rattle.std.specs.Prelude.{◌≡◌, map, option_map};
ghost use Rattle.al_yaml_tree.specs.Access.{mapping_in, scalar_in, sequence_in};
ghost use Rattle.al_yaml_tree.specs.Node.{span_of};
ghost use Rattle.al_yaml_tree.specs.Texts.{HasTexts};
ghost use Rattle.al_yaml_tree.specs.View.{entry_view, view};
ghost use Rattle.al_yaml_tree.specs.declared.node.Node.TheVariants.{Shared};

use crate::node::{Entry, Node};
use al_base::Span;
use al_scalar::Scalar;

impl Node {
    /// The node itself, or the one that it shares.
    fn unshared(&self) -> &Node
        ensures view { view result.now ≡ view self.now }
        ensures own { (node : _) → result.now ≡ Shared node → ⊥ }
    {
        match self {
            Node::Shared(node) => node.unshared(),
            _ => self,
        }
    }

    /// The span of the written form, in bytes of the file; of a node behind an alias, the one at
    /// its anchor.
    #[inline(always)]
    pub fn span(&self) -> Span
        ensures { result ≡ span_of (view self.now) }
    {
        match self.unshared() {
            Node::Scalar(scalar) => scalar.span(),
            Node::Sequence { span, .. } | Node::Mapping { span, .. } => *span,
            Node::Shared(_) => unreachable!(),
        }
    }

    /// The scalar, if the node is one, shared or not.
    #[inline(always)]
    pub fn scalar(&self) -> Option<&Scalar>
        ensures { option_copied result ≡ scalar_in (view self.now) }
    {
        match self.unshared() {
            Node::Scalar(scalar) => Some(scalar),
            _ => None,
        }
    }

    /// The text of the scalar, if the node is one.
    ///
    /// # Requires
    ///
    /// The texts of the tree are UTF-8, as in one that `read_yaml` gave.
    pub fn text(&self) -> Option<&str>
        requires { HasTexts (view self.now) }
        ensures { option_map (λ t. t.now) result ≡ option_map text_of (scalar_in (view self.now)) }
    {
        self.scalar().map(|scalar| scalar.as_str())
    }

    /// The items of the sequence, if the node is one, shared or not.
    #[inline(always)]
    pub fn sequence(&self) -> Option<&[Node]>
        ensures { option_map (λ v. map view v.now) result ≡ sequence_in (view self.now) }
    {
        match self.unshared() {
            Node::Sequence { items, .. } => Some(items.as_slice()),
            _ => None,
        }
    }

    /// The entries of the mapping, if the node is one, shared or not.
    #[inline(always)]
    pub fn mapping(&self) -> Option<&[Entry]>
        ensures { option_map (λ v. map entry_view v.now) result ≡ mapping_in (view self.now) }
    {
        match self.unshared() {
            Node::Mapping { entries, .. } => Some(entries.as_slice()),
            _ => None,
        }
    }
}
