//! Schedules: five fields, each a set of numbers (GitHub, "Events that trigger workflows",
//! `schedule`).

ghost use Rattle.al_rules_formats.specs.Schedules.{from_to as numbers_from_to, head_of};
ghost use Rattle.al_rules_formats.specs.Schedules.{items_of_field, item_parts};
ghost use Rattle.al_rules_formats.specs.Schedules.{is_field as field_is_right, is_just_below};
ghost use Rattle.al_rules_formats.specs.Schedules.{is_too_often as too_often};
ghost use Rattle.al_rules_formats.specs.Schedules.{number_in as in_range_number};
ghost use Rattle.al_rules_formats.specs.Schedules.{picks as item_picks};
ghost use Rattle.al_rules_formats.specs.Schedules.{schedule_of, schedule_value, words};
ghost use Rattle.al_rules_formats.specs.Texts.{pieces};
ghost use Rattle.al_base.specs.Ascii.{ascii};
ghost use Rattle.al_rules_formats.specs.Private.Views.{range_of};
ghost use Rattle.std.specs.List.{list_any};
ghost use Rattle.std.specs.Prelude.{◌≡◌, ◌<◌, [], ◌∷◌, map, option_map, IfOk};

use crate::texts::split;
use al_base::is_same_name;
use std::alloc::{AllocError, Global};

/// What a field accepts: the numbers from the low to the high one, and names for some of them.
#[derive(Clone, Copy)]
struct Range {
    low: u32,
    high: u32,
    names: &'static [(&'static str, u32)],
}

/// The numbers from a low one to a high one, in steps.
#[derive(Clone, Copy)]
pub struct Item {
    pub low: u32,
    pub high: u32,
    pub step: u32,
}

const MINUTES: Range = Range {
    low: 0,
    high: 59,
    names: &[],
};

const HOURS: Range = Range {
    low: 0,
    high: 23,
    names: &[],
};

const DAYS: Range = Range {
    low: 1,
    high: 31,
    names: &[],
};

const MONTHS: Range = Range {
    low: 1,
    high: 12,
    names: &[
        ("jan", 1),
        ("feb", 2),
        ("mar", 3),
        ("apr", 4),
        ("may", 5),
        ("jun", 6),
        ("jul", 7),
        ("aug", 8),
        ("sep", 9),
        ("oct", 10),
        ("nov", 11),
        ("dec", 12),
    ],
};

const WEEKDAYS: Range = Range {
    low: 0,
    high: 6,
    names: &[
        ("sun", 0),
        ("mon", 1),
        ("tue", 2),
        ("wed", 3),
        ("thu", 4),
        ("fri", 5),
        ("sat", 6),
    ],
};

/// The number that these digits are, if it is in the range.
fn number_in(low: u32, high: u32, text: &[u8]) -> Option<u32>
    requires { high < 1000 }
    ensures { result ≡ in_range_number low high text.now }
{
    // Saturates at 1,000.
    let mut number = 0;
    for byte in text {
        if !byte.is_ascii_digit() {
            return None;
        }
        number = (number * 10 + u32::from(*byte - b'0')).min(1_000);
    }
    (!text.is_empty() && low <= number && number <= high).then_some(number)
}

/// The number that a value of a field is: a name's, or one in its range.
fn value(range: Range, text: &[u8]) -> Option<u32>
    requires { range.high < 1000 }
    ensures { result ≡ schedule_value (range_of range) text.now }
{
    for (name, number) in range.names {
        if is_same_name(text, name.as_bytes()) {
            return Some(*number);
        }
    }
    number_in(range.low, range.high, text)
}

/// The numbers from one to another in steps, unless the second is lower.
fn from_to(step: u32, low: u32, high: u32) -> Option<Item>
    ensures { result ≡ numbers_from_to step low high }
{
    (low <= high).then_some(Item { low, high, step })
}

/// What one value, or `*`, means with a step or without one.
fn one_value(range: Range, step: Option<u32>, text: &[u8]) -> Option<Item>
    requires { range.high < 1000 }
    ensures { result ≡ head_of (range_of range) step (text.now ∷ []) }
{
    if text == b"*".as_slice() {
        return from_to(step.unwrap_or(1), range.low, range.high);
    }
    let low = value(range, text)?;
    match step {
        Some(step) => from_to(step, low, range.high),
        None => from_to(1, low, low),
    }
}

/// What two values with a dash between them mean.
fn two_values(range: Range, step: Option<u32>, low: &[u8], high: &[u8]) -> Option<Item>
    requires { range.high < 1000 }
    ensures { result ≡ head_of (range_of range) step (low.now ∷ high.now ∷ []) }
{
    let low = value(range, low)?;
    let high = value(range, high)?;
    from_to(step.unwrap_or(1), low, high)
}

/// What the part before a step means.
fn head(
    alloc: Global,
    range: Range,
    step: Option<u32>,
    text: &[u8],
) -> Result<Option<Item>, AllocError>
    requires { range.high < 1000 }
    ensures { IfOk result (λ r. r ≡ head_of (range_of range) step (pieces (ascii "-") text.now)) }
{
    let parts = split(alloc, text, b'-')?;
    Ok(match parts.as_slice() {
        [only] => one_value(range, step, only),
        [low, high] => two_values(range, step, low, high),
        _ => None,
    })
}

/// The item that a text is, if it is one.
fn item_at(alloc: Global, range: Range, text: &[u8]) -> Result<Option<Item>, AllocError>
    requires { range.high < 1000 }
    ensures { IfOk result (λ r. r ≡ item_parts (range_of range) (pieces (ascii "/") text.now)) }
{
    let parts = split(alloc, text, b'/')?;
    match parts.as_slice() {
        [numbers] => head(alloc, range, None, numbers),
        [numbers, step] => match number_in(1, range.high, step) {
            Some(step) => head(alloc, range, Some(step), numbers),
            None => Ok(None),
        },
        _ => Ok(None),
    }
}

/// The items of a field, if all are valid.
fn field(alloc: Global, range: Range, text: &[u8]) -> Result<Option<Vec<Item>>, AllocError>
    requires { range.high < 1000 }
    ensures { IfOk result (λ r. option_map (λ v. v.items) r
        ≡ items_of_field (range_of range) text.now) }
{
    let parts = split(alloc, text, b',')?;
    let mut items = Vec::new(alloc);
    for part in &parts {
        match item_at(alloc, range, part)? {
            Some(item) => items.push(item)?,
            None => return Ok(None),
        }
    }
    Ok(Some(items))
}

/// Whether a field is valid.
fn is_field(alloc: Global, range: Range, text: &[u8]) -> Result<bool, AllocError>
    requires { range.high < 1000 }
    ensures { IfOk result (λ r. r ≡ field_is_right (range_of range) text.now) }
{
    Ok(field(alloc, range, text)?.is_some())
}

/// The texts between spaces.
fn words_of(alloc: Global, text: &[u8]) -> Result<Vec<&[u8]>, AllocError>
    ensures { IfOk result (λ v. map (λ p. p.now) v.items ≡ words text.now) }
{
    let pieces = text.split(|byte| *byte == b' ');
    pieces.filter(|piece| !piece.is_empty()).collect(alloc)
}

/// The items of a schedule's minutes, or `None` if the text isn't a schedule. Fails with
/// `AllocError` when out of memory.
pub fn schedule(alloc: Global, text: &[u8]) -> Result<Option<Vec<Item>>, AllocError>
    ensures { IfOk result (λ r. option_map (λ v. v.items) r ≡ schedule_of text.now) }
{
    let fields = words_of(alloc, text)?;
    let [minutes, hours, days, months, weekdays] = fields.as_slice() else {
        return Ok(None);
    };
    if !is_field(alloc, HOURS, hours)? {
        return Ok(None);
    }
    if !is_field(alloc, DAYS, days)? {
        return Ok(None);
    }
    if !is_field(alloc, MONTHS, months)? {
        return Ok(None);
    }
    if !is_field(alloc, WEEKDAYS, weekdays)? {
        return Ok(None);
    }
    field(alloc, MINUTES, minutes)
}

/// Whether an item has a number.
fn picks(number: u32, item: Item) -> bool
    ensures { result ≡ item_picks number item }
{
    let Item { low, high, step } = item;
    low <= number && number <= high && 0 < step && (number - low) % step == 0
}

/// Whether one of these items has a number.
fn is_member(number: u32, items: &[Item]) -> bool
    ensures { result ≡ list_any (item_picks number) items.now }
{
    items.iter().any(|item| picks(number, *item))
}

/// Whether one of these numbers is greater than a number, by less than 5.
fn is_close_below(low: u32, numbers: &[u32]) -> bool
    ensures { result ≡ list_any (is_just_below low) numbers.now }
{
    numbers.iter().any(|high| low < *high && *high - low < 5)
}

/// Whether two of the minutes of an hour in these items differ by less than 5. Fails with
/// `AllocError` when out of memory.
pub fn is_too_often(alloc: Global, items: &[Item]) -> Result<bool, AllocError>
    ensures { IfOk result (λ r. r ≡ too_often items.now) }
{
    let minutes = (0..60).filter(|minute| is_member(*minute, items));
    let minutes: Vec<u32> = minutes.collect(alloc)?;
    let numbers = minutes.as_slice();
    Ok(numbers.iter().any(|low| is_close_below(*low, numbers)))
}
