//! The placeholders in a format string of `format`.

ghost use Rattle.std.specs.Prelude.{◌≡◌, ◌∷◌, ℕ, List, IfOk, MatchOption, option_map, None};
ghost use Rattle.al_expr_typing.specs.Placeholders.{used_arguments};
ghost use Rattle.al_expr_typing.specs.Private.PlaceholderStates.{turn, used_from};
ghost use Rattle.al_expr_typing.specs.Private.PlaceholderViews.{IsSmall};

use std::alloc::{AllocError, Global};

/// The state of reading a format string.
#[derive(Clone, Copy)]
pub(crate) enum PlaceholderState {
    Outside,
    AfterOpening,
    /// After a digit of an index that has this value so far.
    InIndex(u128),
    AfterClosing,
}

/// What a byte of a format string leads to: another state, the index that it ends, or a wrong
/// brace.
#[derive(Clone, Copy)]
pub(crate) enum Turn {
    To(PlaceholderState),
    Names(u128),
    Wrong,
}

/// Which of `count` arguments a format string uses; `None` if a brace is alone, or an index has no
/// argument.
#[tactic(auto, using(crate::proofs::PlaceholderLemmas::states_tell))]
pub(crate) fn used_arguments(
    alloc: Global,
    text: &str,
    count: usize,
) -> Result<Option<Vec<bool>>, AllocError>
    ensures { IfOk result (λ u. option_map (λ v. v.items) u ≡ used_arguments count text.now) }
{
    let mut used = Vec::from_elem(alloc, false, count)?;
    let mut state = PlaceholderState::Outside;
    for byte in text.as_bytes() {
        match pass(state, *byte, &mut used) {
            Some(next) => state = next,
            None => return Ok(None),
        }
    }
    match state {
        PlaceholderState::Outside => Ok(Some(used)),
        _ => Ok(None),
    }
}

// The state after a byte, with the argument marked whose index it ends; `None` if the format string
// is wrong.
fn pass(state: PlaceholderState, byte: u8, used: &mut [bool]) -> Option<PlaceholderState>
    requires { IsSmall state }
    ensures { MatchOption result
        ((rest : List ℕ) → used_from state used.old (byte ∷ rest) ≡ None)
        (λ next. IsSmall next
        × ((rest : List ℕ) → used_from state used.old (byte ∷ rest)
        ≡ used_from next used.new rest)) }
{
    let count = used.len() as u128;
    match read_byte(state, byte) {
        // No argument has such an index, however it continues.
        Turn::To(PlaceholderState::InIndex(index)) if index >= count => None,
        Turn::To(next) => Some(next),
        Turn::Names(index) => {
            if index >= count {
                return None;
            }
            used[index as usize] = true;
            Some(PlaceholderState::Outside)
        }
        Turn::Wrong => None,
    }
}

fn read_byte(state: PlaceholderState, byte: u8) -> Turn
    requires { IsSmall state }
    ensures { result ≡ turn state byte }
{
    match (state, byte) {
        (PlaceholderState::Outside, b'{') => Turn::To(PlaceholderState::AfterOpening),
        (PlaceholderState::Outside, b'}') => Turn::To(PlaceholderState::AfterClosing),
        (PlaceholderState::Outside, _) => Turn::To(PlaceholderState::Outside),
        (PlaceholderState::AfterOpening, b'{') => Turn::To(PlaceholderState::Outside),
        (PlaceholderState::AfterOpening, b'0'..=b'9') => Turn::To(PlaceholderState::InIndex(
            u128::from(byte - b'0'),
        )),
        (PlaceholderState::InIndex(index), b'0'..=b'9') => {
            Turn::To(PlaceholderState::InIndex(10 * index + u128::from(byte - b'0')))
        }
        (PlaceholderState::InIndex(index), b'}') => Turn::Names(index),
        (PlaceholderState::AfterClosing, b'}') => Turn::To(PlaceholderState::Outside),
        _ => Turn::Wrong,
    }
}
