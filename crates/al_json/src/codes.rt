//! The codes of faults: their identifiers, kinds and messages.

use crate::json::Json;
use al_text::{
    Args, CallCode, Caller, Code, ExpressionCode, Fault, Format, KeyCode, Output, PrintedFile,
    RuleCode, Span, YamlCode, kind, write_fault,
};
use std::alloc::{AllocError, Global};

// What comes before the message in the line of a fault at the start of a file without a path, and
// what is around its kind.
const BEFORE_MESSAGE: usize = 6;

const AROUND_KIND: usize = 4;

/// How many arguments the message of a code names.
#[derive(Clone, Copy)]
pub enum Arity {
    None,
    One,
    Two,
}

/// All codes, in the order of reports, with the number of arguments of each.
static CODES: [(Code, Arity); 85] = [
    (Code::Yaml(YamlCode::NotUtf8), Arity::None),
    (Code::Yaml(YamlCode::ControlCharacter), Arity::None),
    (Code::Yaml(YamlCode::TabInIndentation), Arity::None),
    (Code::Yaml(YamlCode::WrongIndentation), Arity::None),
    (Code::Yaml(YamlCode::UnclosedQuote), Arity::None),
    (Code::Yaml(YamlCode::UnclosedFlow), Arity::None),
    (Code::Yaml(YamlCode::AnchorOrAlias), Arity::None),
    (Code::Yaml(YamlCode::Tag), Arity::None),
    (Code::Yaml(YamlCode::ExplicitKey), Arity::None),
    (Code::Yaml(YamlCode::Directive), Arity::None),
    (Code::Yaml(YamlCode::SecondDocument), Arity::None),
    (Code::Yaml(YamlCode::WrongEscape), Arity::None),
    (Code::Yaml(YamlCode::UnexpectedCharacter), Arity::None),
    (Code::Yaml(YamlCode::NestingTooDeep), Arity::None),
    (Code::Yaml(YamlCode::TooManyNodes), Arity::None),
    (Code::Yaml(YamlCode::WrongBlockHeader), Arity::None),
    (Code::Yaml(YamlCode::WrongKey), Arity::None),
    (Code::Yaml(YamlCode::UnknownAlias), Arity::None),
    (Code::Key(KeyCode::Unexpected), Arity::One),
    (Code::Key(KeyCode::Missing), Arity::One),
    (Code::Key(KeyCode::Repeated), Arity::One),
    (Code::Key(KeyCode::WrongKind), Arity::One),
    (Code::Key(KeyCode::WrongType), Arity::One),
    (Code::Key(KeyCode::NotBeside), Arity::Two),
    (Code::Key(KeyCode::EmptyFile), Arity::None),
    (Code::Rule(RuleCode::UnknownEvent), Arity::One),
    (Code::Rule(RuleCode::UnknownActivity), Arity::One),
    (Code::Rule(RuleCode::WrongPattern), Arity::One),
    (Code::Rule(RuleCode::WrongSchedule), Arity::One),
    (Code::Rule(RuleCode::ScheduleTooOften), Arity::One),
    (Code::Rule(RuleCode::WrongId), Arity::One),
    (Code::Rule(RuleCode::RepeatedId), Arity::One),
    (Code::Rule(RuleCode::UndefinedJob), Arity::One),
    (Code::Rule(RuleCode::NeedsCycle), Arity::Two),
    (Code::Rule(RuleCode::WrongMatrix), Arity::One),
    (Code::Rule(RuleCode::UnknownMatrixRow), Arity::One),
    (Code::Rule(RuleCode::UnknownShell), Arity::One),
    (Code::Rule(RuleCode::UnknownPermission), Arity::One),
    (Code::Rule(RuleCode::WrongPermission), Arity::One),
    (Code::Rule(RuleCode::WrongVariable), Arity::One),
    (Code::Rule(RuleCode::PasswordNotExpression), Arity::None),
    (Code::Rule(RuleCode::DeprecatedCommand), Arity::One),
    (Code::Rule(RuleCode::AlwaysTrue), Arity::None),
    (Code::Rule(RuleCode::UnknownInputType), Arity::One),
    (Code::Rule(RuleCode::UnknownUsing), Arity::One),
    (Code::Rule(RuleCode::MissingShell), Arity::None),
    (Code::Rule(RuleCode::MissingOutputValue), Arity::One),
    (Code::Expression(ExpressionCode::BadCharacter), Arity::None),
    (Code::Expression(ExpressionCode::UnclosedText), Arity::None),
    (
        Code::Expression(ExpressionCode::UnexpectedToken),
        Arity::One,
    ),
    (Code::Expression(ExpressionCode::EndsEarly), Arity::None),
    (Code::Expression(ExpressionCode::TooLong), Arity::None),
    (Code::Expression(ExpressionCode::TooDeep), Arity::None),
    (
        Code::Expression(ExpressionCode::UndefinedContext),
        Arity::One,
    ),
    (
        Code::Expression(ExpressionCode::UnavailableContext),
        Arity::One,
    ),
    (
        Code::Expression(ExpressionCode::UndefinedFunction),
        Arity::One,
    ),
    (
        Code::Expression(ExpressionCode::UnavailableFunction),
        Arity::One,
    ),
    (Code::Expression(ExpressionCode::ArgumentCount), Arity::One),
    (Code::Expression(ExpressionCode::ArgumentType), Arity::Two),
    (
        Code::Expression(ExpressionCode::UndefinedProperty),
        Arity::One,
    ),
    (Code::Expression(ExpressionCode::NotIndexable), Arity::None),
    (Code::Expression(ExpressionCode::NotComparable), Arity::None),
    (
        Code::Expression(ExpressionCode::WrongPlaceholder),
        Arity::None,
    ),
    (Code::Expression(ExpressionCode::UnusedArgument), Arity::One),
    (Code::Expression(ExpressionCode::NotText), Arity::None),
    (Code::Expression(ExpressionCode::Untrusted), Arity::One),
    (Code::Expression(ExpressionCode::UnclosedChunk), Arity::None),
    (Code::Call(CallCode::NoWorkflow, Caller::Job), Arity::One),
    (Code::Call(CallCode::NoWorkflow, Caller::Step), Arity::One),
    (
        Code::Call(CallCode::UndefinedInput, Caller::Job),
        Arity::Two,
    ),
    (
        Code::Call(CallCode::UndefinedInput, Caller::Step),
        Arity::Two,
    ),
    (Code::Call(CallCode::MissingInput, Caller::Job), Arity::Two),
    (Code::Call(CallCode::MissingInput, Caller::Step), Arity::Two),
    (Code::Call(CallCode::WrongInput, Caller::Job), Arity::Two),
    (Code::Call(CallCode::WrongInput, Caller::Step), Arity::Two),
    (
        Code::Call(CallCode::UndefinedSecret, Caller::Job),
        Arity::Two,
    ),
    (
        Code::Call(CallCode::UndefinedSecret, Caller::Step),
        Arity::Two,
    ),
    (Code::Call(CallCode::MissingSecret, Caller::Job), Arity::Two),
    (
        Code::Call(CallCode::MissingSecret, Caller::Step),
        Arity::Two,
    ),
    (Code::Call(CallCode::WrongUses, Caller::Job), Arity::One),
    (Code::Call(CallCode::WrongUses, Caller::Step), Arity::One),
    (Code::Call(CallCode::NotCallable, Caller::Job), Arity::One),
    (Code::Call(CallCode::NotCallable, Caller::Step), Arity::One),
    (Code::Call(CallCode::CallCycle, Caller::Job), Arity::One),
    (Code::Call(CallCode::CallCycle, Caller::Step), Arity::One),
];

/// All codes, in the order of reports, with the number of arguments of each. Faults of calls are
/// twice there, for a job and for a step.
pub fn rows_of_codes() -> &'static [(Code, Arity)] {
    &CODES
}

/// The letter of a code, and its number from 0.
fn letter_and_place(code: Code) -> (char, u8) {
    match code {
        Code::Yaml(code) => ('Y', code as u8),
        Code::Key(code) => ('K', code as u8),
        Code::Rule(code) => ('G', code as u8),
        Code::Expression(code) => ('X', code as u8),
        Code::Call(code, _) => ('C', code as u8),
    }
}

/// The identifier of a code, as `K2`.
pub fn identifier(alloc: Global, code: Code) -> Result<String, AllocError> {
    let (letter, place) = letter_and_place(code);
    let number = u32::from(place).saturating_add(1);
    format!(in alloc; "{letter}{number}")
}

// The part of a fault's line that is its message.
fn message_in<'a>(line: &'a [u8], word: &str) -> &'a [u8] {
    let end = line
        .len()
        .saturating_sub(word.len().saturating_add(AROUND_KIND));
    if end < BEFORE_MESSAGE || end > line.len() {
        return &[];
    }
    &line[BEFORE_MESSAGE..end]
}

// The line of a fault at the start of a file without a path and without bytes.
fn line_of(alloc: Global, fault: &Fault) -> Result<Vec<u8>, AllocError> {
    let mut line = Vec::new(alloc);
    if fault.span.end != 0 || fault.span.start != 0 {
        return Ok(line);
    }
    let file = PrintedFile {
        path: "",
        bytes: b"",
        format: Format::Oneline,
    };
    match write_fault(&mut Output::new(&mut line), &file, fault) {
        Ok(()) => Ok(line),
        Err(_) => Err(AllocError),
    }
}

/// Writes the message of a code with these arguments.
pub fn push_message(json: &mut Json, code: Code, args: Args) -> Result<(), AllocError> {
    let span = Span { start: 0, end: 0 };
    let fault = Fault { span, code, args };
    let line = line_of(json.alloc(), &fault)?;
    json.key("message")?;
    json.bytes(message_in(&line, kind(code)))
}

/// Writes the identifier and the kind of a code.
pub fn push_code(json: &mut Json, code: Code) -> Result<(), AllocError> {
    let name = identifier(json.alloc(), code)?;
    json.text_at("code", name.as_str())?;
    json.text_at("kind", kind(code))
}

// Arguments that stand for any others.
fn sample(json: &Json, arity: Arity) -> Result<Args, AllocError> {
    match arity {
        Arity::None => Ok(Args::none()),
        Arity::One => Ok(Args::one(String::from_str(json.alloc(), "{0}")?)),
        Arity::Two => Args::two(json.alloc(), "{0}", "{1}"),
    }
}

/// Writes the message of a code, with `{0}` and `{1}` for its arguments.
pub fn push_template(json: &mut Json, code: Code, arity: Arity) -> Result<(), AllocError> {
    let args = sample(json, arity)?;
    push_message(json, code, args)
}
