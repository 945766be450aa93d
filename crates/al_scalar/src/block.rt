//! Literal and folded block scalars (YAML 1.2.2, 8.1).

ghost use Rattle.std.specs.Prelude.{◌≡◌, ◌+◌, ◌<◌, ◌≤◌, ◌^◌, ◌++◌, ◌∷◌, [], ◌||◌, true, Some, None};
ghost use Rattle.std.specs.Prelude.{length, IfOk};
ghost use Rattle.al_scalar.specs.Block.{block_scalar, found_indent, content_indent, row_of};
ghost use Rattle.al_scalar.specs.Block.{own_break, final_breaks, joint, text_after, rows_end};
ghost use Rattle.al_scalar.specs.Private.BlockRead.{RowStarts, ReadsRows, last_row, row_like};
ghost use Rattle.al_scalar.specs.Private.BlockRead.{RowTo};
ghost use Rattle.al_scalar.specs.Private.BlockRead.{AddsRow, EndsRow, last_line};
ghost use Rattle.al_scalar.specs.Places.{lines_at, text_at};
ghost use Rattle.al_scalar.specs.LineEnds.{cells_between, IsLineEnd, BlankTo};
ghost use Rattle.al_scalar.specs.Private.Reads.{Gives, StaysWithin};
ghost use Rattle.al_scalar.specs.Taken.{feeds};

use crate::faults::FaultAt;
use crate::header::{Chomping, header_fault, indicators};
use crate::lines::{after_break, blank_line_end, indent, is_blank, line_end, spaces_end};
use crate::reads::Taken;
use crate::texts::Text;
use al_base::YamlCode;
use std::alloc::{AllocError, Global};

/// The last line with text: whether it begins with a blank, and its break.
#[derive(Clone, Copy)]
struct LastLine {
    spaced: bool,
    at: u32,
}

/// Where the text of a line of a block scalar begins, and whether the line is all blanks.
#[derive(Clone, Copy)]
struct RowStart {
    from: usize,
    is_blank: bool,
}

/// The text of a line that ends with a break: from an offset up to that of the break.
#[derive(Clone, Copy)]
struct Row {
    from: usize,
    stop: usize,
}

/// How the lines of a block scalar are read, and whether its header gives the indent.
#[derive(Clone, Copy)]
struct BlockStyle {
    literal: bool,
    chomping: Chomping,
    indent: Option<usize>,
    explicit: bool,
}

/// The breaks after the last row with text: its own, and those of the empty lines since.
#[derive(Drop)]
struct PendingBreaks {
    last: Option<LastLine>,
    empties: Vec<u32>,
}

/// The state after some rows: the text without the pending breaks, these, and the end of the text.
#[derive(Drop)]
struct RowState {
    text: Text,
    pending: PendingBreaks,
    end: usize,
}

/// Whether a block scalar is literal, and one more than the indent of the enclosing collection.
#[derive(Clone, Copy)]
pub struct BlockKind {
    pub literal: bool,
    pub within: u32,
}

/// The row of the line at an offset, given the indent of the content and, if the line is all
/// blanks, its end; `None` if the line ends the scalar.
fn indented_row(bytes: &[u8], at: usize, indent: usize, blank: Option<usize>) -> Option<RowStart>
    requires inside { at ≤ length bytes.now }
    requires blank { BlankTo bytes.now at blank }
    ensures { RowTo bytes.now at (row_of (Some indent) true (text_at bytes.now at)) result }
{
    let from = spaces_end(bytes, at, indent);
    if from - at == indent {
        return Some(RowStart {
            from,
            is_blank: blank.is_some(),
        });
    }
    let end = blank?;
    Some(RowStart {
        from: end,
        is_blank: true,
    })
}

/// Where the row of the line at an offset begins; `None` if the line ends the scalar. `found` says
/// whether the line that gives the indent has been read.
fn row_start(bytes: &[u8], at: usize, indent: Option<usize>, found: bool) -> Option<RowStart>
    requires { at ≤ length bytes.now }
    ensures { RowStarts bytes.now at indent found result }
{
    let blank = blank_line_end(bytes, at);
    match indent {
        Some(indent) if found || blank.is_none() => indented_row(bytes, at, indent, blank),
        _ => Some(RowStart {
            from: blank?,
            is_blank: true,
        }),
    }
}

/// The indent of the first line that isn't all blanks, if it is at least `within`.
fn find_indent(bytes: &[u8], at: usize, within: usize) -> Option<usize>
    requires { at ≤ length bytes.now }
    ensures { result ≡ found_indent within (lines_at bytes.now at) }
{
    let mut i = at;
    'blank_lines: loop {
        match blank_line_end(bytes, i) {
            None => {
                let found = indent(bytes, i);
                return if within <= found { Some(found) } else { None };
            }
            Some(end) if end == bytes.len() => return None,
            Some(end) => i = after_break(bytes, end),
        }
    }
}

/// Adds a line feed for each of some breaks.
fn push_feeds(text: &mut Text, breaks: &[u32]) -> Result<(), AllocError>
    ensures { IfOk result (λ _. text.new ≡ text.old ++ feeds breaks.now) }
{
    for at in breaks {
        text.push(b'\n', *at as usize)?;
    }
    Ok(())
}

/// Adds the break of the last line with text.
fn push_own(text: &mut Text, last: Option<LastLine>) -> Result<(), AllocError>
    ensures { IfOk result (λ _. text.new ≡ text.old ++ feeds (own_break (last_row last))) }
{
    match last {
        Some(l) => text.push(b'\n', l.at as usize),
        None => Ok(()),
    }
}

/// Adds the final breaks that are kept.
fn chomp(text: &mut Text, chomping: Chomping, pending: &PendingBreaks) -> Result<(), AllocError>
    ensures { IfOk result
        (λ _. text.new
        ≡ text.old
        ++ final_breaks chomping (own_break (last_row pending.now.last))
        pending.now.empties.items) }
{
    match chomping {
        Chomping::Strip => Ok(()),
        Chomping::Clip => push_own(text, pending.last),
        Chomping::Keep => {
            push_own(text, pending.last)?;
            push_feeds(text, &pending.empties)
        }
    }
}

/// Adds the text for the breaks between the last line with text and the next one; `spaced` says
/// whether the next line begins with a blank.
fn push_joint(
    text: &mut Text,
    literal: bool,
    pending: &PendingBreaks,
    spaced: bool,
) -> Result<(), AllocError>
    ensures { IfOk result
        (λ _. text.new
        ≡ text.old
        ++ joint literal (last_row pending.now.last) pending.now.empties.items
        (row_like spaced [])) }
{
    match pending.last {
        Some(l) if literal || l.spaced || spaced => {
            text.push(b'\n', l.at as usize)?;
            push_feeds(text, &pending.empties)
        }
        Some(l) if pending.empties.is_empty() => text.push(b' ', l.at as usize),
        _ => push_feeds(text, &pending.empties),
    }
}

/// Adds the row of a line that ends with a break.
fn add_row(state: &mut RowState, bytes: &[u8], row: Row, literal: bool) -> Result<(), AllocError>
    requires order { row.from ≤ row.stop }
    requires inside { row.stop < length bytes.now }
    requires after { state.old.end ≤ row.from }
    requires size { length bytes.now < 2 ^ 32 }
    ensures text { IfOk result
        (λ _. AddsRow literal state.old (cells_between bytes.now row.from row.stop)
        (row.stop ∷ []) state.new) }
    ensures end { IfOk result
        (λ _. EndsRow state.old (cells_between bytes.now row.from row.stop) state.new) }
    ensures within { IfOk result
        (λ _. (state.old.end ≤ state.new.end) × (state.new.end ≤ row.stop)) }
{
    if row.from == row.stop {
        state.pending.empties.push(row.stop as u32)?;
        return Ok(());
    }
    let spaced = is_blank(bytes[row.from]);
    push_joint(&mut state.text, literal, &state.pending, spaced)?;
    state.text.push_run(bytes, row.from, row.stop)?;
    state.pending.last = Some(LastLine {
        spaced,
        at: row.stop as u32,
    });
    state.pending.empties.clear();
    state.end = row.stop;
    Ok(())
}

/// Adds the row of the last line of the file, which begins at an offset.
fn end_row(
    state: &mut RowState,
    bytes: &[u8],
    from: usize,
    style: BlockStyle,
) -> Result<(), AllocError>
    requires inside { from ≤ length bytes.now }
    requires after { state.old.end ≤ from }
    requires size { length bytes.now < 2 ^ 32 }
    ensures text { IfOk result
        (λ _. state.new.text
        ≡ state.old.text
        ++ text_after style.literal style.chomping
        (last_row state.old.pending.last) state.old.pending.empties.items
        (last_line bytes.now from)) }
    ensures end { IfOk result
        (λ _. state.new.end ≡ rows_end state.old.end (last_line bytes.now from)) }
    ensures within { IfOk result
        (λ _. (state.old.end ≤ state.new.end) × (state.new.end ≤ length bytes.now)) }
{
    if from == bytes.len() {
        chomp(&mut state.text, style.chomping, &state.pending)?;
        return Ok(());
    }
    let spaced = is_blank(bytes[from]);
    push_joint(&mut state.text, style.literal, &state.pending, spaced)?;
    state.text.push_run(bytes, from, bytes.len())?;
    state.end = bytes.len();
    Ok(())
}

/// Reads the rows of a block scalar, starting at a line, and returns where the lines after them
/// begin.
fn read_rows(
    state: &mut RowState,
    bytes: &[u8],
    at: usize,
    style: BlockStyle,
) -> Result<usize, AllocError>
    requires order { state.old.end ≤ at }
    requires inside { at ≤ length bytes.now }
    requires size { length bytes.now < 2 ^ 32 }
    ensures rows { IfOk result (λ next. ReadsRows bytes.now style at state.old state.new next) }
    ensures within { IfOk result
        (λ next. (state.old.end ≤ state.new.end) × (state.new.end ≤ next)
        × (next ≤ length bytes.now)) }
{
    let mut i = at;
    let mut found = style.explicit;
    'rows: loop {
        let Some(start) = row_start(bytes, i, style.indent, found) else {
            chomp(&mut state.text, style.chomping, &state.pending)?;
            return Ok(i);
        };
        let from = start.from;
        let stop = line_end(bytes, from);
        if stop == bytes.len() {
            end_row(state, bytes, from, style)?;
            return Ok(stop);
        }
        add_row(state, bytes, Row { from, stop }, style.literal)?;
        found |= !start.is_blank;
        i = after_break(bytes, stop);
    }
}

/// The indent of the content: by the digit of the header, or else by the lines after it, the first
/// of which begins at an offset.
fn content_indent(bytes: &[u8], first: usize, digit: Option<u8>, within: u32) -> Option<usize>
    requires { first ≤ length bytes.now }
    ensures { result ≡ content_indent digit within (lines_at bytes.now first) }
{
    match digit {
        Some(digit) => Some(digit as usize + (within as usize).saturating_sub(1)),
        None => find_indent(bytes, first, within as usize),
    }
}

/// Reads a block scalar, starting at its indicator.
pub fn read_block(
    alloc: Global,
    bytes: &[u8],
    at: usize,
    kind: BlockKind,
) -> Result<Result<Taken, FaultAt>, AllocError>
    requires inside { at < length bytes.now }
    requires begins { IsLineEnd bytes.now at → ⊥ }
    requires size { length bytes.now < 2 ^ 32 }
    ensures gives { IfOk result
        (λ read. Gives bytes.now
        (block_scalar kind.literal kind.within (lines_at bytes.now at)) read) }
    ensures within { IfOk result (λ read. StaysWithin bytes.now at read) }
{
    let header = indicators(bytes, at + 1);
    if let Some(place) = header_fault(bytes, header.end) {
        return Ok(Err(FaultAt {
            code: YamlCode::WrongBlockHeader,
            at: place,
        }));
    }
    let text = Text::new(alloc, at);
    let end = line_end(bytes, header.end);
    if end == bytes.len() {
        return Ok(Ok(Taken {
            text,
            end: header.end,
            next: end,
        }));
    }
    let first = after_break(bytes, end);
    let style = BlockStyle {
        literal: kind.literal,
        chomping: header.chomping,
        indent: content_indent(bytes, first, header.digit, kind.within),
        explicit: header.digit.is_some(),
    };
    let mut state = RowState {
        text,
        pending: PendingBreaks {
            last: None,
            empties: Vec::new(alloc),
        },
        end: header.end,
    };
    let next = read_rows(&mut state, bytes, first, style)?;
    Ok(Ok(Taken {
        text: state.text,
        end: state.end,
        next,
    }))
}
