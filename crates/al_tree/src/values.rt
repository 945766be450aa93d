//! Items, values and texts of nodes, if the nodes have the wanted kind.

ghost use Rattle.al_base.specs.NamePlaces.{TellsFirsts, is_first_name, name_place, name_position};
ghost use Rattle.al_tree.specs.Keys.{keys_in};
ghost use Rattle.al_tree.specs.Values.{entries_at, entries_in, items_at, items_in, key_at};
ghost use Rattle.al_tree.specs.Values.{member_of, text_at_key, text_in};
ghost use Rattle.al_tree.specs.Values.{texts_at, texts_in, value_at};
ghost use Rattle.al_yaml_tree.specs.View.{view};
ghost use Rattle.std.specs.Option.{option_copied};
ghost use Rattle.std.specs.Prelude.{◌≡◌, map, option_map, IfOk};

use crate::keys::{KeyIndex, entry_among};
use crate::scalars::is_null_scalar;
use al_base::NamePositions;
use al_scalar::Scalar;
use al_yaml_tree::Node;
use std::alloc::{AllocError, Global};
use std::slice;

/// The items of a sequence, in order; no items if the node isn't one.
pub fn items(node: &Node) -> &[Node]
    ensures { map view result.now ≡ items_in (view node.now) }
{
    node.sequence().unwrap_or(&[])
}

/// The value of the first entry with a key, compared exactly; `None` if there is none or the node
/// isn't a mapping. Takes time linear in the number of entries.
#[tactic(auto, using(al_yaml_tree::proofs::ViewLemmas::entry_parts))]
pub fn value<'a>(node: &'a Node, key: &str) -> Option<&'a Node>
    ensures { option_map (λ n. view n.now) result ≡ value_at key.now (view node.now) }
{
    Some(&entry_among(node.mapping()?, key)?.value)
}

/// The first key of a mapping with this text, compared exactly; `None` if there is none or the node
/// isn't a mapping.
#[tactic(auto, using(al_yaml_tree::proofs::ViewLemmas::entry_parts))]
pub fn key<'a>(node: &'a Node, key: &str) -> Option<&'a Scalar>
    ensures { option_copied result ≡ key_at key.now (view node.now) }
{
    Some(&entry_among(node.mapping()?, key)?.key)
}

/// The scalar of a node; `None` if it is null or the node isn't a scalar.
pub fn text(node: &Node) -> Option<&Scalar>
    ensures { option_copied result ≡ text_in (view node.now) }
{
    node.scalar().filter(|scalar| !is_null_scalar(scalar))
}

/// The scalar under a key; `None` if it is null, if there is no such key, or if the value isn't a
/// scalar.
pub fn text_under<'a>(node: &'a Node, key: &str) -> Option<&'a Scalar>
    ensures { option_copied result ≡ text_at_key key.now (view node.now) }
{
    text(value(node, key)?)
}

/// The scalars of a node that is a scalar or a sequence of scalars, in order, without those that
/// are null.
///
/// # Errors
///
/// `AllocError` if memory runs out.
pub fn texts(alloc: Global, node: &Node) -> Result<Vec<&Scalar>, AllocError>
    ensures { IfOk result (λ v. map (λ s. s.now) v.items ≡ texts_in (view node.now)) }
{
    let nodes = node.sequence().unwrap_or(slice::from_ref(node));
    let mut found = Vec::new(alloc);
    for node in nodes {
        if let Some(scalar) = text(node) {
            found.push(scalar)?;
        }
    }
    Ok(found)
}

/// The scalars under a key whose value is a scalar or a sequence of scalars, in order, without
/// those that are null.
///
/// # Errors
///
/// `AllocError` if memory runs out.
pub fn texts_under<'a>(
    alloc: Global,
    node: &'a Node,
    key: &str,
) -> Result<Vec<&'a Scalar>, AllocError>
    ensures { IfOk result (λ v. map (λ s. s.now) v.items ≡ texts_at key.now (view node.now)) }
{
    match value(node, key) {
        Some(node) => texts(alloc, node),
        None => Ok(Vec::new(alloc)),
    }
}

/// The items of the sequence under a key, in order; no items if there is no sequence.
pub fn items_under<'a>(node: &'a Node, key: &str) -> &'a [Node]
    ensures { map view result.now ≡ items_at key.now (view node.now) }
{
    value(node, key).map_or(&[], items)
}

/// A key of a mapping and its value.
#[derive(Clone, Copy)]
pub struct Member<'a> {
    /// The key.
    pub key: &'a Scalar,
    /// The value.
    pub value: &'a Node,
}

/// The entries of a mapping in order, only the first of equal keys; no entries if the node isn't a
/// mapping.
///
/// # Errors
///
/// `AllocError` if memory runs out.
pub fn members(alloc: Global, node: &Node) -> Result<Vec<Member<'_>>, AllocError>
    ensures { IfOk result (λ v. map member_of v.items ≡ entries_in (view node.now)) }
{
    let Some(entries) = node.mapping() else {
        return Ok(Vec::new(alloc));
    };
    let index = KeyIndex::of(alloc, entries)?;
    let mut firsts = Vec::with_capacity(alloc, entries.len())?;
    for (i, entry) in entries.iter().enumerate() {
        if !index.key_at(i).is_repeated {
            firsts.push(Member {
                key: &entry.key,
                value: &entry.value,
            })?;
        }
    }
    Ok(firsts)
}

/// The entries of the mapping under a key in order, only the first of equal keys; no entries if
/// there is no mapping.
///
/// # Errors
///
/// `AllocError` if memory runs out.
pub fn members_under<'a>(
    alloc: Global,
    node: &'a Node,
    key: &str,
) -> Result<Vec<Member<'a>>, AllocError>
    ensures { IfOk result (λ v. map member_of v.items ≡ entries_at key.now (view node.now)) }
{
    match value(node, key) {
        Some(mapping) => members(alloc, mapping),
        None => Ok(Vec::new(alloc)),
    }
}

/// The texts of the keys of members, in order.
///
/// # Errors
///
/// `AllocError` if memory runs out.
pub fn key_texts<'a>(alloc: Global, members: &[Member<'a>]) -> Result<Vec<&'a [u8]>, AllocError>
    ensures { IfOk result (λ v. map (λ k. k.now) v.items ≡ keys_in (map member_of members.now)) }
{
    let mut keys = Vec::with_capacity(alloc, members.len())?;
    for member in members {
        keys.push(member.key.text())?;
    }
    Ok(keys)
}

/// Where the key of each member occurs first, ignoring ASCII case: its position from 0 among these
/// members.
///
/// # Errors
///
/// `AllocError` if memory runs out.
pub fn member_positions(alloc: Global, members: &[Member<'_>]) -> Result<NamePositions, AllocError>
    ensures position { IfOk result
        (λ p. name_position p ≡ name_place (keys_in (map member_of members.now))) }
    ensures first { let ks = keys_in (map member_of members.now) in
        IfOk result (λ p. TellsFirsts (name_place ks) ks (is_first_name p)) }
{
    let keys = key_texts(alloc, members)?;
    NamePositions::of(alloc, keys.as_slice())
}
