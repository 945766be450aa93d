//! What a mapping declares by names, ignoring ASCII case.
ghost use Rattle.std.specs.Prelude.{◌≡◌, [], map, option_map, IfOk};
ghost use Rattle.std.specs.Option.{option_map_or};
ghost use Rattle.al_tree.specs.Declarations as declarations;
ghost use Rattle.al_tree.specs.Declarations.{named_among};
ghost use Rattle.al_tree.specs.Values.{member_of};
ghost use Rattle.al_yaml_tree.specs.View.{view};

use crate::values::{Member, member_positions, members};
use al_base::is_same_name;
use al_yaml_tree::Node;
use std::alloc::{AllocError, Global};

/// What a mapping declares by names: its entries in order, and of names that are equal in any ASCII
/// case the first. Nothing if the node isn't a mapping.
///
/// # Errors
///
/// `AllocError` if memory runs out.
pub fn declared_in(alloc: Global, node: &Node) -> Result<Vec<Member<'_>>, AllocError>
    ensures { IfOk result (λ v. map member_of v.items ≡ declarations.declared_in (view node.now)) }
{
    let members = members(alloc, node)?;
    let members = members.as_slice();
    let positions = member_positions(alloc, members)?;
    let mut found = Vec::new(alloc);
    for (i, member) in members.iter().enumerate() {
        if positions.is_first(i) {
            found.push(*member)?;
        }
    }
    Ok(found)
}

/// What a node declares, as [`declared_in`] finds it; nothing for `None`.
///
/// # Errors
///
/// `AllocError` if memory runs out.
pub fn declared_at(alloc: Global, node: Option<&Node>) -> Result<Vec<Member<'_>>, AllocError>
    ensures { IfOk result
        (λ v. map member_of v.items
        ≡ option_map_or declarations.declared_in (option_map (λ n. view n.now) node.entry) []) }
{
    match node {
        Some(node) => declared_in(alloc, node),
        None => Ok(Vec::new(alloc)),
    }
}

/// Whether one of these texts is this name, ignoring ASCII case. Doesn't allocate.
pub fn is_named_among(texts: &[&[u8]], name: &[u8]) -> bool
    ensures { result ≡ named_among (map (λ t. t.now) texts.now) name.now }
{
    texts.iter().any(|text| is_same_name(text, name))
}
