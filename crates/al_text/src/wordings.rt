//! The table of fault codes: what a report prints for each.
ghost use Rattle.std.specs.Prelude.{◌≡◌, codes};
ghost use Rattle.al_text.specs.Wordings.{code_row, call_kind};
ghost use Rattle.al_base.specs.declared.codes.Code.TheVariants as code;
ghost use Rattle.al_text.specs.Private.Wordings.{IsRowOf};

use al_base::{CallCode, Caller, Code, ExpressionCode, KeyCode, RuleCode, YamlCode};

/// The kind that a report prints, and the words of a message before, between and after its
/// arguments.
#[derive(Clone, Copy)]
pub(crate) struct CodeRow {
    pub(crate) kind: &'static str,
    pub(crate) head: &'static str,
    pub(crate) middle: &'static str,
    pub(crate) tail: &'static str,
}

// A row with these words; a message without arguments has only the first.
macro_rules! row {
    ($kind:expr, $head:expr) => {
        row!($kind, $head, "", "")
    };
    ($kind:expr, $head:expr, $middle:expr) => {
        row!($kind, $head, $middle, "")
    };
    ($kind:expr, $head:expr, $middle:expr, $tail:expr) => {
        CodeRow {
            kind: $kind,
            head: $head,
            middle: $middle,
            tail: $tail,
        }
    };
}

/// The kind that a report prints in brackets after the message of a fault. Doesn't allocate.
pub fn kind(code: Code) -> &'static str
    ensures { result.now ≡ (code_row code).kind }
{
    row_of(code).kind
}

pub(crate) fn row_of(code: Code) -> CodeRow
    ensures { IsRowOf code result }
{
    match code {
        Code::Yaml(fault) => yaml_row(fault),
        Code::Key(fault) => key_row(fault),
        Code::Rule(fault) => rule_row(fault),
        Code::Expression(fault) => expression_row(fault),
        Code::Call(fault, caller) => call_row(fault, caller),
    }
}

fn yaml_row(fault: YamlCode) -> CodeRow
    ensures { IsRowOf (code.Yaml fault) result }
{
    let kind = "syntax-check";
    match fault {
        YamlCode::NotUtf8 => row!(kind, "file is not UTF-8"),
        YamlCode::ControlCharacter => row!(kind, "control character"),
        YamlCode::TabInIndentation => row!(kind, "tab in indentation"),
        YamlCode::WrongIndentation => row!(kind, "wrong indentation"),
        YamlCode::UnclosedQuote => row!(kind, "quoted text is not closed"),
        YamlCode::UnclosedFlow => row!(kind, "flow collection is not closed"),
        YamlCode::AnchorOrAlias => row!(kind, "anchors and aliases are not supported"),
        YamlCode::Tag => row!(kind, "tags are not supported"),
        YamlCode::ExplicitKey => row!(kind, "explicit keys are not supported"),
        YamlCode::Directive => row!(kind, "directives are not supported"),
        YamlCode::SecondDocument => row!(kind, "second document"),
        YamlCode::WrongEscape => row!(kind, "wrong escape"),
        YamlCode::UnexpectedCharacter => row!(kind, "unexpected character"),
        YamlCode::NestingTooDeep => row!(kind, "nesting is too deep"),
        YamlCode::TooManyNodes => row!(kind, "too many nodes"),
        YamlCode::WrongBlockHeader => row!(kind, "wrong block scalar header"),
        YamlCode::WrongKey => row!(kind, "key is not a scalar on one line"),
        YamlCode::UnknownAlias => row!(kind, "unknown alias"),
    }
}

fn key_row(fault: KeyCode) -> CodeRow
    ensures { IsRowOf (code.Key fault) result }
{
    let kind = "syntax-check";
    match fault {
        KeyCode::Unexpected => row!(kind, "unexpected key \"", "\""),
        KeyCode::Missing => row!(kind, "key \"", "\" is missing"),
        KeyCode::Repeated => row!(kind, "key \"", "\" is repeated"),
        KeyCode::WrongKind => row!(kind, "wrong kind of value for \"", "\""),
        KeyCode::WrongType => row!(kind, "wrong type of value for \"", "\""),
        KeyCode::NotBeside => row!(kind, "\"", "\" cannot stand beside \"", "\""),
        KeyCode::EmptyFile => row!(kind, "file is empty"),
    }
}

fn rule_row(fault: RuleCode) -> CodeRow
    ensures { IsRowOf (code.Rule fault) result }
{
    match fault {
        RuleCode::UnknownEvent => row!("events", "unknown event \"", "\""),
        RuleCode::UnknownActivity => row!("events", "unknown activity type \"", "\""),
        RuleCode::WrongPattern => row!("glob", "wrong filter pattern \"", "\""),
        RuleCode::WrongSchedule => row!("events", "wrong schedule \"", "\""),
        RuleCode::ScheduleTooOften => row!(
            "events",
            "schedule \"",
            "\" runs more often than every 5 minutes"
        ),
        RuleCode::WrongId => row!("id", "wrong id \"", "\""),
        RuleCode::RepeatedId => row!("id", "id \"", "\" is repeated"),
        RuleCode::UndefinedJob => row!("job-needs", "job \"", "\" is not defined"),
        RuleCode::NeedsCycle => row!("job-needs", "\"", "\" needs \"", "\" in a cycle"),
        RuleCode::WrongMatrix => row!("matrix", "wrong shape of matrix \"", "\""),
        RuleCode::UnknownMatrixRow => row!("matrix", "\"", "\" is not a matrix row"),
        RuleCode::UnknownShell => row!("shell-name", "unknown shell \"", "\""),
        RuleCode::UnknownPermission => row!("permissions", "unknown permission \"", "\""),
        RuleCode::WrongPermission => row!("permissions", "wrong permission value \"", "\""),
        RuleCode::WrongVariable => row!("env-var", "wrong name \"", "\" of environment variable"),
        RuleCode::PasswordNotExpression => row!("credentials", "password must be one expression"),
        RuleCode::DeprecatedCommand => row!(
            "deprecated-commands",
            "command \"",
            "\" is deprecated"
        ),
        RuleCode::AlwaysTrue => row!("if-cond", "condition is always true"),
        RuleCode::UnknownInputType => row!("events", "unknown input type \"", "\""),
        RuleCode::UnknownUsing => row!("action", "unknown using \"", "\""),
        RuleCode::MissingShell => row!("action", "shell is required here"),
        RuleCode::MissingOutputValue => row!("action", "output \"", "\" needs a value"),
    }
}

fn expression_row(fault: ExpressionCode) -> CodeRow
    ensures { IsRowOf (code.Expression fault) result }
{
    let kind = "expression";
    match fault {
        ExpressionCode::BadCharacter => row!(kind, "bad character in expression"),
        ExpressionCode::UnclosedText => row!(kind, "text in expression is not closed"),
        ExpressionCode::UnexpectedToken => row!(kind, "unexpected token \"", "\""),
        ExpressionCode::EndsEarly => row!(kind, "expression ends too early"),
        ExpressionCode::TooLong => row!(kind, "expression is too long"),
        ExpressionCode::TooDeep => row!(kind, "expression is too deep"),
        ExpressionCode::UndefinedContext => row!(kind, "context \"", "\" is not defined"),
        ExpressionCode::UnavailableContext => row!(kind, "context \"", "\" is not available here"),
        ExpressionCode::UndefinedFunction => row!(kind, "function \"", "\" is not defined"),
        ExpressionCode::UnavailableFunction => row!(
            kind,
            "function \"",
            "\" is not available here"
        ),
        ExpressionCode::ArgumentCount => row!(kind, "wrong number of arguments for \"", "\""),
        ExpressionCode::ArgumentType => row!(kind, "wrong type of argument ", " of \"", "\""),
        ExpressionCode::UndefinedProperty => row!(kind, "property \"", "\" is not defined"),
        ExpressionCode::NotIndexable => row!(kind, "value cannot be indexed"),
        ExpressionCode::NotComparable => row!(kind, "values cannot be compared"),
        ExpressionCode::WrongPlaceholder => row!(kind, "wrong placeholder in format"),
        ExpressionCode::UnusedArgument => row!(kind, "argument ", " of format is not used"),
        ExpressionCode::NotText => row!(kind, "object or array in a text"),
        ExpressionCode::Untrusted => row!(kind, "\"", "\" is untrusted, pass it by env"),
        ExpressionCode::UnclosedChunk => row!(kind, "braces of expression are not closed"),
    }
}

fn call_row(fault: CallCode, caller: Caller) -> CodeRow
    ensures { IsRowOf (code.Call fault caller) result }
{
    let kind = kind_of_call(caller);
    match fault {
        CallCode::NoWorkflow => row!(kind, "workflow \"", "\" is not in the folder"),
        CallCode::UndefinedInput => row!(kind, "input \"", "\" is not defined in \"", "\""),
        CallCode::MissingInput => row!(kind, "required input \"", "\" of \"", "\" is missing"),
        CallCode::WrongInput => row!(kind, "input \"", "\" must be "),
        CallCode::UndefinedSecret => row!(kind, "secret \"", "\" is not defined in \"", "\""),
        CallCode::MissingSecret => row!(kind, "required secret \"", "\" of \"", "\" is missing"),
        CallCode::WrongUses => row!(kind, "\"", "\" is not a valid uses"),
        CallCode::NotCallable => row!(kind, "\"", "\" cannot be called here"),
        CallCode::CallCycle => row!(kind, "call of \"", "\" leads back to this file"),
    }
}

fn kind_of_call(caller: Caller) -> &'static str
    ensures { result.now ≡ codes (call_kind caller) }
{
    match caller {
        Caller::Job => "workflow-call",
        Caller::Step => "action",
    }
}
