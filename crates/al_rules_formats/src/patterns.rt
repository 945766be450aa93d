//! Filter patterns, of branches, tags and paths (GitHub, "Workflow syntax", "Filter pattern cheat
//! sheet").

ghost use Rattle.al_rules_formats.specs.Patterns.{are_items_from, after_not as without_not};
ghost use Rattle.al_rules_formats.specs.Patterns.{has_barred as barred};
ghost use Rattle.al_rules_formats.specs.Patterns.{is_pattern as pattern, is_right};
ghost use Rattle.al_rules_formats.specs.Private.PatternStates.{outside as outside_class};
ghost use Rattle.al_rules_formats.specs.Private.PatternStates.{read as read_one};
ghost use Rattle.std.specs.Prelude.{◌≡◌, false, IfOk};

use std::alloc::{AllocError, Global};

/// What a filter pattern matches.
#[derive(Clone, Copy)]
pub enum Filter {
    /// The names of branches or tags.
    Names,
    /// The paths of changed files.
    Paths,
}

/// The state of reading a filter pattern.
#[derive(Clone, Copy)]
pub(crate) enum State {
    /// Before its first item.
    FirstItem,
    /// After an item.
    AfterItem,
    /// After a `\`.
    AfterEscape,
    /// In an empty class.
    ClassFirst,
    /// In a class, after a range.
    ClassNext,
    /// In a class, after a character that may begin a range.
    ClassLow(char),
    /// In a class, after such a character and a `-`.
    ClassDash(char),
}

/// The state after one more character outside a class, whether after an item or not.
fn outside(is_after: bool, c: char) -> Option<State>
    ensures { result ≡ outside_class is_after c }
{
    match c {
        '\\' => Some(State::AfterEscape),
        '[' => Some(State::ClassFirst),
        '?' | '+' if is_after => Some(State::AfterItem),
        '?' | '+' => None,
        _ => Some(State::AfterItem),
    }
}

/// The state after one more character, if it is allowed.
fn read(state: State, c: char) -> Option<State>
    ensures { result ≡ read_one state c }
{
    match state {
        State::FirstItem => outside(false, c),
        State::AfterItem => outside(true, c),
        State::AfterEscape => Some(State::AfterItem),
        State::ClassFirst if c == ']' => None,
        State::ClassFirst => Some(State::ClassLow(c)),
        State::ClassNext | State::ClassLow(_) | State::ClassDash(_) if c == ']' => {
            Some(State::AfterItem)
        }
        State::ClassNext => Some(State::ClassLow(c)),
        State::ClassLow(low) if c == '-' => Some(State::ClassDash(low)),
        State::ClassLow(_) => Some(State::ClassLow(c)),
        State::ClassDash(low) if c < low => None,
        State::ClassDash(_) => Some(State::ClassNext),
    }
}

/// Whether characters are one or more items.
fn are_items(characters: &[char]) -> bool
    ensures { result ≡ are_items_from false characters.now }
{
    let mut state = State::FirstItem;
    for c in characters {
        match read(state, *c) {
            Some(next) => state = next,
            None => return false,
        }
    }
    matches!(state, State::AfterItem)
}

/// The characters after a leading `!`, if there is one.
fn after_not(characters: &[char]) -> &[char]
    ensures { result.now ≡ without_not characters.now }
{
    match characters {
        ['!', rest @ ..] => rest,
        _ => characters,
    }
}

/// Whether a filter has something that filters of its kind can't have.
fn has_barred(filter: Filter, characters: &[char]) -> bool
    ensures { result ≡ barred filter characters.now }
{
    match filter {
        Filter::Names => characters
            .iter()
            .any(|c| matches!(*c, ' ' | '~' | '^' | ':')),
        Filter::Paths => matches!(after_not(characters), ['.', '/', ..]),
    }
}

/// Whether characters are a filter pattern.
fn is_right_pattern(filter: Filter, characters: &[char]) -> bool
    ensures { result ≡ is_right filter characters.now }
{
    !has_barred(filter, characters) && (are_items(characters) || are_items(after_not(characters)))
}

/// Whether a text is a filter pattern: an optional `!`, then one or more items, without what
/// filters of this kind can't have.
///
/// Bytes that aren't UTF-8 are read as U+FFFD. Fails with `AllocError` when out of memory.
pub fn is_pattern(alloc: Global, filter: Filter, text: &[u8]) -> Result<bool, AllocError>
    ensures { IfOk result (λ r. r ≡ pattern filter text.now) }
{
    let text = String::from_utf8_lossy(alloc, text)?;
    let characters: Vec<char> = text.as_str().chars().collect(alloc)?;
    Ok(is_right_pattern(filter, characters.as_slice()))
}
