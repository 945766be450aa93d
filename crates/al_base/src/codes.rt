//! The codes of faults, in the order of reports.

/// What can be wrong with a file as YAML (YAML 1.2.2, the subset that `docs/YAML.md` describes).
#[derive(Clone, Copy, PartialEq, Eq, PartialOrd, Ord, Debug)]
pub enum YamlCode {
    /// Y1: the file is not UTF-8.
    NotUtf8,
    /// Y2: a character that is not printable.
    ControlCharacter,
    /// Y3: a tab where spaces indent.
    TabInIndentation,
    /// Y4: a line's indent fits no open collection.
    WrongIndentation,
    /// Y5: a quoted scalar that is not closed.
    UnclosedQuote,
    /// Y6: a flow collection that is not closed.
    UnclosedFlow,
    /// Y7: an anchor or alias.
    AnchorOrAlias,
    /// Y8: a tag.
    Tag,
    /// Y9: an explicit key, `? `.
    ExplicitKey,
    /// Y10: a directive, `%`.
    Directive,
    /// Y11: a second document.
    SecondDocument,
    /// Y12: an escape that double quotes do not have.
    WrongEscape,
    /// Y13: a character that is not allowed there.
    UnexpectedCharacter,
    /// Y14: collections nested more than 64 deep.
    NestingTooDeep,
    /// Y15: more than 100,000 nodes.
    TooManyNodes,
    /// Y16: an invalid block scalar header.
    WrongBlockHeader,
    /// Y17: a key that is not a scalar on one line.
    WrongKey,
    /// Y18: an alias whose anchor is unknown, or names a node that is not complete.
    UnknownAlias,
}

/// How the keys and values of a workflow or action can violate GitHub's syntax.
#[derive(Clone, Copy, PartialEq, Eq, PartialOrd, Ord, Debug)]
pub enum KeyCode {
    /// K1: a key that is not known there.
    Unexpected,
    /// K2: a required key that is missing.
    Missing,
    /// K3: a key that the mapping already has.
    Repeated,
    /// K4: a node of the wrong kind.
    WrongKind,
    /// K5: a scalar of the wrong type.
    WrongType,
    /// K6: a key that is not allowed beside another.
    NotBeside,
    /// K7: an empty file.
    EmptyFile,
}

/// What can be wrong in a single file by the rules of workflows and actions.
#[derive(Clone, Copy, PartialEq, Eq, PartialOrd, Ord, Debug)]
pub enum RuleCode {
    /// G1: an event that GitHub does not have.
    UnknownEvent,
    /// G2: an activity type that the event does not have.
    UnknownActivity,
    /// G3: a filter pattern outside its grammar.
    WrongPattern,
    /// G4: a schedule outside cron's grammar.
    WrongSchedule,
    /// G5: a schedule that runs more often than every 5 minutes.
    ScheduleTooOften,
    /// G6: an id with a character that ids cannot have.
    WrongId,
    /// G7: an id that another job or step has.
    RepeatedId,
    /// G8: a job in `needs` that is not defined.
    UndefinedJob,
    /// G9: a job that waits for itself.
    NeedsCycle,
    /// G10: a matrix, row, `include` or `exclude` of the wrong shape.
    WrongMatrix,
    /// G11: a key in `exclude` that is not a row of the matrix.
    UnknownMatrixRow,
    /// G12: a shell that is not known.
    UnknownShell,
    /// G13: a permission scope that is not known.
    UnknownPermission,
    /// G14: a permission value that is not known.
    WrongPermission,
    /// G15: a name that no environment variable can have.
    WrongVariable,
    /// G16: a password that is more than one expression.
    PasswordNotExpression,
    /// G17: a workflow command that is deprecated.
    DeprecatedCommand,
    /// G18: a condition that is always true, since there is text beside its expression.
    AlwaysTrue,
    /// G19: an input type that is not known.
    UnknownInputType,
    /// G20: a `using` that is not known.
    UnknownUsing,
    /// G21: a composite action's `run` without `shell`.
    MissingShell,
    /// G22: a composite action's output without `value`.
    MissingOutputValue,
}

/// What can be wrong with an expression, `${{ .. }}`: its tokens, its grammar, then its meaning.
#[derive(Clone, Copy, PartialEq, Eq, PartialOrd, Ord, Debug)]
pub enum ExpressionCode {
    /// X1: a character that begins no token.
    BadCharacter,
    /// X2: a string that is not closed.
    UnclosedText,
    /// X3: an unexpected token.
    UnexpectedToken,
    /// X4: an expression that ends too early.
    EndsEarly,
    /// X5: more than 21,000 bytes.
    TooLong,
    /// X6: nested more than 50 deep.
    TooDeep,
    /// X7: a context that is not defined.
    UndefinedContext,
    /// X8: a context that is not available there.
    UnavailableContext,
    /// X9: a function that is not defined.
    UndefinedFunction,
    /// X10: a function that is not available there.
    UnavailableFunction,
    /// X11: a wrong number of arguments.
    ArgumentCount,
    /// X12: an argument of the wrong type.
    ArgumentType,
    /// X13: a property that the type does not have.
    UndefinedProperty,
    /// X14: an index into a value that cannot be indexed.
    NotIndexable,
    /// X15: operands that cannot be compared.
    NotComparable,
    /// X16: a placeholder that `format` does not have.
    WrongPlaceholder,
    /// X17: an argument that `format` does not use.
    UnusedArgument,
    /// X18: an object or array in a text.
    NotText,
    /// X19: untrusted text in a script.
    Untrusted,
    /// X20: `${{` without `}}`.
    UnclosedChunk,
}

/// What can be wrong with a call of a file in the folder.
#[derive(Clone, Copy, PartialEq, Eq, PartialOrd, Ord, Debug)]
pub enum CallCode {
    /// C1: a workflow that is not in the folder.
    NoWorkflow,
    /// C2: an input that is not declared.
    UndefinedInput,
    /// C3: a required input that is missing.
    MissingInput,
    /// C4: an input of the wrong type.
    WrongInput,
    /// C5: a secret that is not declared.
    UndefinedSecret,
    /// C6: a required secret that is missing.
    MissingSecret,
    /// C7: an invalid `uses`.
    WrongUses,
    /// C8: a file that cannot be called there.
    NotCallable,
    /// C9: a call on a call cycle.
    CallCycle,
}

/// Who calls. Between faults that are otherwise equal, a job's comes before a step's.
#[derive(Clone, Copy, PartialEq, Eq, PartialOrd, Ord, Debug)]
pub enum Caller {
    /// A job, which calls a workflow.
    Job,
    /// A step, which calls an action.
    Step,
}

/// The code of a fault. Codes are ordered as reports order them: by kind, then in the order of the
/// variants.
#[derive(Clone, Copy, PartialEq, Eq, PartialOrd, Ord, Debug)]
pub enum Code {
    /// Y1 to Y18: the file isn't YAML, as far as it is read.
    Yaml(YamlCode),
    /// K1 to K7: keys and values that GitHub's syntax doesn't allow.
    Key(KeyCode),
    /// G1 to G22: a rule about a single file.
    Rule(RuleCode),
    /// X1 to X20: a fault of an expression.
    Expression(ExpressionCode),
    /// C1 to C9: a fault of a call, by a job or by a step.
    Call(CallCode, Caller),
}
