//! Filter patterns, schedules, names and lone expressions.

use al_base::is_same_name;
use al_expr_grammar::{Around, is_lone_chunk};
use al_rules_formats::{Filter, has_part, is_id, is_pattern, is_too_often, is_variable, schedule};
use std::alloc::{AllocError, Global};

/// A text, and two expected answers.
type Row = (&'static str, bool, bool);

/// Texts, and whether each is a pattern for branches and tags, and one for paths.
static PATTERNS: [Row; 24] = [
    ("main", true, true),
    ("releases/**", true, true),
    ("v[0-9]+.[0-9]+", true, true),
    ("**.js", true, true),
    ("*.jsx?", true, true),
    ("!docs/**", true, true),
    ("!", true, true),
    ("!?", true, true),
    ("[a-]", true, true),
    ("[-a]", true, true),
    ("[a-c-b]", true, true),
    ("\\[a", true, true),
    ("", false, false),
    ("?", false, false),
    ("+a", false, false),
    ("a[b", false, false),
    ("[]", false, false),
    ("[z-a]", false, false),
    ("a\\", false, false),
    ("a b", false, true),
    ("a\\ b", false, true),
    ("[ ~^:]", false, true),
    ("./a", true, false),
    ("!./a", true, false),
];

/// What a text is as a schedule.
#[derive(Clone, Copy, PartialEq, Eq)]
enum Schedule {
    Wrong,
    TooOften,
    Right,
}

static SCHEDULES: [(&str, Schedule); 22] = [
    ("*/5 * * * *", Schedule::Right),
    ("*/59 * * * *", Schedule::Right),
    ("0 0 1 JAN sun", Schedule::Right),
    ("0,59 * * * *", Schedule::Right),
    ("00  0 * * *", Schedule::Right),
    ("0 */07 * * *", Schedule::Right),
    (" 30 4 * feb-apr MON-FRI ", Schedule::Right),
    ("*/4 * * * *", Schedule::TooOften),
    ("5/3 * * * *", Schedule::TooOften),
    ("* * * * *", Schedule::TooOften),
    ("0,3 0 * * *", Schedule::TooOften),
    ("0 0 * * 7", Schedule::Wrong),
    ("5/60 * * * *", Schedule::Wrong),
    ("60 * * * *", Schedule::Wrong),
    ("0 24 * * *", Schedule::Wrong),
    ("0 0 0 * *", Schedule::Wrong),
    ("0 0 * 13 *", Schedule::Wrong),
    ("0 0 * * fri-mon", Schedule::Wrong),
    ("*/0 * * * *", Schedule::Wrong),
    ("0 0 * *", Schedule::Wrong),
    ("0\t0 * * *", Schedule::Wrong),
    ("", Schedule::Wrong),
];

fn expected_patterns() -> &'static [Row] {
    &PATTERNS
}

fn expected_schedules() -> &'static [(&'static str, Schedule)] {
    &SCHEDULES
}

// What the library says a text is as a schedule.
fn read_schedule(alloc: Global, text: &str) -> Result<Schedule, AllocError> {
    let Some(items) = schedule(alloc, text.as_bytes())? else {
        return Ok(Schedule::Wrong);
    };
    if is_too_often(alloc, items.as_slice())? {
        Ok(Schedule::TooOften)
    } else {
        Ok(Schedule::Right)
    }
}

fn is_pattern_as_expected(alloc: Global, row: &Row) -> Result<bool, AllocError> {
    let (text, names, paths) = row;
    let bytes = text.as_bytes();
    Ok(
        is_pattern(alloc, Filter::Names, bytes)? == *names
            && is_pattern(alloc, Filter::Paths, bytes)? == *paths,
    )
}

#[test]
fn patterns(rt: HostRuntime) -> Result<(), AllocError> {
    for row in expected_patterns() {
        assert!(rt; is_pattern_as_expected(rt.alloc(), row)?);
    }
    Ok(())
}

#[test]
fn schedules(rt: HostRuntime) -> Result<(), AllocError> {
    for (text, expected) in expected_schedules() {
        assert!(rt; read_schedule(rt.alloc(), text)? == *expected);
    }
    Ok(())
}

/// Texts, and whether each is one expression and nothing else, and one expression between blanks.
static LONE: [Row; 6] = [
    ("${{ secrets.P }}", true, true),
    (" ${{ secrets.P }}\n", false, true),
    ("${{ a }}${{ b }}", false, false),
    ("${{ a }} || b", false, false),
    ("${{ a ", false, false),
    ("a", false, false),
];

fn expected_lone() -> &'static [Row] {
    &LONE
}

fn is_lone_as_expected(alloc: Global, row: &Row) -> Result<bool, AllocError> {
    let (text, alone, between_blanks) = row;
    let bytes = text.as_bytes();
    Ok(
        is_lone_chunk(alloc, Around::Nothing, bytes)? == *alone
            && is_lone_chunk(alloc, Around::Blanks, bytes)? == *between_blanks,
    )
}

#[test]
fn lone_expressions(rt: HostRuntime) -> Result<(), AllocError> {
    for row in expected_lone() {
        assert!(rt; is_lone_as_expected(rt.alloc(), row)?);
    }
    Ok(())
}

/// Texts, and whether each is an id, and the name of a variable.
static NAMES: [Row; 8] = [
    ("build", true, true),
    ("_build-2", true, true),
    ("2build", false, true),
    ("a.b", false, true),
    ("", false, false),
    ("a b", false, false),
    ("a=b", false, false),
    ("a&b", false, false),
];

fn expected_names() -> &'static [Row] {
    &NAMES
}

fn is_name_as_expected(row: &Row) -> bool {
    let bytes = row.0.as_bytes();
    is_id(bytes) == row.1 && is_variable(bytes) == row.2
}

#[test]
fn names(rt: HostRuntime) {
    for row in expected_names() {
        assert!(rt; is_name_as_expected(row));
    }
}

fn is_part(part: &[u8], text: &[u8]) -> bool {
    has_part(part, text)
}

fn are_same(one: &[u8], other: &[u8]) -> bool {
    is_same_name(one, other)
}

#[test]
fn parts(rt: HostRuntime) {
    assert!(rt; is_part(b"{0}", b"zsh {0}"));
    assert!(rt; !is_part(b"{0}", b"zsh {1}"));
    assert!(rt; are_same(b"Build", b"bUILD"));
    assert!(rt; !are_same(b"Build", b"Builds"));
}
