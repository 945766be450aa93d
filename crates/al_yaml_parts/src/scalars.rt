//! Scalars and empty nodes, and where they end.

ghost use Rattle.al_scalar.specs.ReadScalar.{read_of, reading_at};
ghost use Rattle.al_scalar.specs.Places.{lines_at};
ghost use Rattle.al_yaml_tree.specs.Blocks as block;
ghost use Rattle.al_yaml_parts.specs.Files.{left_at, size};
ghost use Rattle.al_yaml_tree.specs.Flow as flow;
ghost use Rattle.al_yaml_tree.specs.Node as tree;
ghost use Rattle.al_yaml_parts.specs.Places.{IsReadInside};
ghost use Rattle.al_yaml_parts.specs.Reads.{Answers, IsPartAfter, IsRead, IsStopInside, part_of};
ghost use Rattle.al_yaml_parts.specs.Reads.{state_of};
ghost use Rattle.al_yaml_tree.specs.View.{view};
ghost use Rattle.std.specs.Prelude.{IfErr, IfOk, length, ◌+◌, ◌≡◌, ◌≤◌};
ghost use Rattle.al_base.specs.Limits.{largest_file};

use crate::content::line_after;
use crate::faults::ReadError;
use crate::file::File;
use crate::limits::State;
use crate::part::Part;
use crate::starts::is_block_start;
use al_scalar::{ScalarContext, ScalarRead, read_scalar};
use al_yaml_tree::scalar_node;
use std::alloc::Global;

/// Reads the scalar at an offset.
#[inline(always)]
pub fn scalar_at(
    alloc: Global,
    bytes: &[u8],
    at: usize,
    place: ScalarContext,
) -> Result<ScalarRead, ReadError>
    requires inside { at ≤ length bytes.now }
    requires size { length bytes.now ≤ largest_file }
    ensures fault { IfErr result (IsStopInside (length bytes.now)) }
    ensures is { Answers (read_of bytes.now) (reading_at place (lines_at bytes.now at)) result }
    ensures inside { IfOk result (λ read. IsReadInside bytes.now at read) }
{
    match read_scalar(alloc, bytes, at, place)? {
        Ok(read) => Ok(read),
        Err(fault) => Err(ReadError::at(fault.code, fault.span.start as usize)),
    }
}

/// A scalar as a node, with the offset after it.
pub fn scalar_part(next: usize, read: ScalarRead) -> Part
    ensures node { view result.node ≡ tree.scalar read.scalar }
    ensures end { result.end ≡ read.scalar.span.end }
    ensures next { result.next ≡ next }
{
    let end = read.scalar.span().end as usize;
    let node = scalar_node(read.scalar);
    Part { node, end, next }
}

/// The empty node at an offset (7.2), which counts as a node; what is left begins at `next`.
pub fn empty_part(file: &File, state: &mut State, at: usize, next: usize) -> Result<Part, ReadError>
    requires inside { at ≤ size file.now }
    ensures fault { IfErr result (IsStopInside (size file.now)) }
    ensures is { IsRead (part_of file.now.bytes.now) (flow.empty_node at (left_at file.now next))
        (state_of state.old) result (state_of state.new) }
    ensures end { IfOk result (λ part. part.end ≡ at) }
    ensures next { IfOk result (λ part. part.next ≡ next) }
{
    state.start(at, 1, 0)?;
    let read = scalar_at(file.alloc, file.bytes, at, ScalarContext::Empty)?;
    Ok(scalar_part(next, read))
}

/// Reads a scalar in block context with the rest of its line.
pub fn read_line_scalar(
    file: &File,
    state: &mut State,
    within: usize,
    at: usize,
) -> Result<Part, ReadError>
    requires inside { at ≤ size file.now }
    requires within { within ≤ largest_file + 1 }
    ensures fault { IfErr result (IsStopInside (size file.now)) }
    ensures is { IsRead (part_of file.now.bytes.now)
        (block.scalar_node_at within (left_at file.now at))
        (state_of state.old) result (state_of state.new) }
    ensures within { IfOk result (λ part. IsPartAfter file.now.bytes.now at part) }
{
    state.start(at, 1, 0)?;
    let place = ScalarContext::BlockFromIndent(within as u32);
    let read = scalar_at(file.alloc, file.bytes, at, place)?;
    // a block scalar ends with its last line
    if is_block_start(file.bytes, at) {
        return Ok(scalar_part(read.next, read));
    }
    let next = line_after(file.bytes, read.next)?;
    Ok(scalar_part(next, read))
}
