//! Tests of types and of type faults, by worked rows.

use crate::{
    Available, Context, ContextTypes, Field, Form, Function, Scope, Ty, assignable, fuse,
    parse_expr, signature_of, type_of,
};
use al_base::{Code, ExpressionCode, Fault};
use std::alloc::{AllocError, Global};
use std::test::Fail;

fn field(alloc: Global, name: &str, ty: Ty) -> Result<Field, AllocError> {
    Ok(Field {
        name: String::from_str(alloc, name)?,
        ty,
    })
}

/// Every context except `secrets`, and of the special functions only `hashFiles`.
fn available() -> Available {
    Available {
        contexts: &[
            Context::Github,
            Context::Env,
            Context::Vars,
            Context::Runner,
            Context::Job,
            Context::Strategy,
            Context::Needs,
            Context::Jobs,
            Context::Steps,
            Context::Matrix,
            Context::Inputs,
        ],
        special: &[Function::HashFiles],
    }
}

/// A step's `run`, where these are available. `github` is an object with the string `head_ref` and
/// the field `event` of type any; every other context is any.
fn step_run(alloc: Global) -> Result<Scope, AllocError> {
    let mut fields = Vec::new(alloc);
    fields.push(field(alloc, "head_ref", Ty::String)?)?;
    fields.push(field(alloc, "event", Ty::Any)?)?;
    Ok(Scope {
        types: ContextTypes {
            github: Ty::Object { fields, rest: None },
            env: Ty::Any,
            vars: Ty::Any,
            secrets: Ty::Any,
            runner: Ty::Any,
            job: Ty::Any,
            strategy: Ty::Any,
            needs: Ty::Any,
            jobs: Ty::Any,
            steps: Ty::Any,
            matrix: Ty::Any,
            inputs: Ty::Any,
        },
        available: available(),
        in_run: true,
    })
}

/// An expression, the form of its type, and its one fault, if it has one, with the place and texts
/// of the fault.
struct Row {
    content: &'static str,
    form: Form,
    fault: Option<(ExpressionCode, u32, u32, &'static [&'static str])>,
}

const ROWS: [Row; 24] = [
    Row {
        content: "format('{0} {2}', 'a', 'b')",
        form: Form::String,
        fault: Some((ExpressionCode::WrongPlaceholder, 7, 16, &[])),
    },
    Row {
        content: "format('{0}', 'a', 'b')",
        form: Form::String,
        fault: Some((ExpressionCode::UnusedArgument, 19, 22, &["3"])),
    },
    Row {
        content: "format('{{}}{00}', 'a')",
        form: Form::String,
        fault: None,
    },
    Row {
        content: "startsWith('a')",
        form: Form::Bool,
        fault: Some((ExpressionCode::ArgumentCount, 0, 10, &["startsWith"])),
    },
    Row {
        content: "contains(github, 'a')",
        form: Form::Bool,
        fault: Some((ExpressionCode::ArgumentType, 9, 15, &["1", "contains"])),
    },
    Row {
        content: "join(1)",
        form: Form::String,
        fault: None,
    },
    Row {
        content: "nope",
        form: Form::Any,
        fault: Some((ExpressionCode::UndefinedContext, 0, 4, &["nope"])),
    },
    Row {
        content: "secrets.T",
        form: Form::Any,
        fault: Some((ExpressionCode::UnavailableContext, 0, 7, &["secrets"])),
    },
    Row {
        content: "nofun()",
        form: Form::Any,
        fault: Some((ExpressionCode::UndefinedFunction, 0, 5, &["nofun"])),
    },
    Row {
        content: "failure()",
        form: Form::Bool,
        fault: Some((ExpressionCode::UnavailableFunction, 0, 7, &["failure"])),
    },
    Row {
        content: "github['it''s']",
        form: Form::Any,
        fault: Some((ExpressionCode::UndefinedProperty, 7, 14, &["it's"])),
    },
    Row {
        content: "'a'.b",
        form: Form::Any,
        fault: Some((ExpressionCode::NotIndexable, 3, 5, &[])),
    },
    Row {
        content: "github == 1",
        form: Form::Bool,
        fault: Some((ExpressionCode::NotComparable, 7, 9, &[])),
    },
    Row {
        content: "github.head_ref || 1",
        form: Form::String,
        fault: Some((ExpressionCode::Untrusted, 0, 15, &["github.head_ref"])),
    },
    Row {
        content: "GitHub.event['Issue'].title",
        form: Form::Any,
        fault: Some((
            ExpressionCode::Untrusted,
            0,
            27,
            &["github.event.issue.title"],
        )),
    },
    Row {
        content: "github.event.commits[0].message",
        form: Form::Any,
        fault: Some((
            ExpressionCode::Untrusted,
            0,
            31,
            &["github.event.commits.*.message"],
        )),
    },
    Row {
        content: "github.event.issue.title.x",
        form: Form::Any,
        fault: None,
    },
    Row {
        content: "(github.event).issue.title",
        form: Form::Any,
        fault: None,
    },
    Row {
        content: "contains(github.head_ref, 'a')",
        form: Form::Bool,
        fault: None,
    },
    Row {
        content: "github.head_ref == 'a'",
        form: Form::Bool,
        fault: None,
    },
    Row {
        content: "(github || github).head_ref",
        form: Form::String,
        fault: None,
    },
    Row {
        content: "(github && github).nope",
        form: Form::Any,
        fault: Some((ExpressionCode::UndefinedProperty, 19, 23, &["nope"])),
    },
    Row {
        content: "(github || github || github).*",
        form: Form::Array,
        fault: None,
    },
    Row {
        content: "(github || 'a').nope",
        form: Form::Any,
        fault: None,
    },
];

// Whether a text is the expected one at this index, or absent if none is expected.
fn is_text(found: Option<&str>, told: &[&str], index: usize) -> bool {
    match told.get(index) {
        Some(text) => match found {
            Some(found) => found == *text,
            None => false,
        },
        None => found.is_none(),
    }
}

fn is_fault(found: &Fault, code: ExpressionCode, start: u32, end: u32, texts: &[&str]) -> bool {
    found.code == Code::Expression(code)
        && found.span.start == start
        && found.span.end == end
        && texts.len() <= 2
        && is_text(found.args.first(), texts, 0)
        && is_text(found.args.second(), texts, 1)
}

fn are_faults(found: &[Fault], row: &Row) -> bool {
    match row.fault {
        None => found.len() == 0,
        Some((code, start, end, texts)) => match found {
            [only] => is_fault(only, code, start, end, texts),
            _ => false,
        },
    }
}

fn holds(alloc: Global, scope: &Scope, row: &Row) -> Result<bool, AllocError> {
    let Ok(expr) = parse_expr(alloc, row.content)? else {
        return Ok(false);
    };
    let mut out = Vec::new(alloc);
    let ty = type_of(alloc, scope, &expr, &mut out)?;
    Ok(ty.form() == row.form && are_faults(&out, row))
}

/// The first row that doesn't hold.
fn wrong_row(alloc: Global, scope: &Scope) -> Result<Option<&'static str>, AllocError> {
    for row in &ROWS {
        if !holds(alloc, scope, row)? {
            return Ok(Some(row.content));
        }
    }
    Ok(None)
}

fn wrong_in_a_run(alloc: Global) -> Result<Option<&'static str>, AllocError> {
    let scope = step_run(alloc)?;
    wrong_row(alloc, &scope)
}

#[test]
fn rows(rt: HostRuntime) -> Result<(), Fail> {
    let wrong = wrong_in_a_run(rt.alloc())?;
    assert_eq!(rt; wrong, None);
    Ok(())
}

#[test]
fn types(rt: HostRuntime) -> Result<(), Fail> {
    let both = fuse(rt.alloc(), Ty::Number, Ty::String)?;
    assert!(rt; both.form() == Form::String);
    let unknown = fuse(rt.alloc(), Ty::Null, Ty::Number)?;
    assert!(rt; unknown.form() == Form::Any);
    assert!(rt; assignable(&Ty::Bool, &Ty::String) && !assignable(&Ty::String, &Ty::Number));
    assert!(rt; signature_of("TOJSON").is_some() && signature_of("toXML").is_none());
    Ok(())
}

/// Whether a type is an object with exactly the fields of these names and forms, in this order.
fn is_object(ty: &Ty, wanted: &[(&str, Form)]) -> bool {
    match ty {
        Ty::Object { fields, rest } => rest.is_none() && are_fields(fields, wanted),
        _ => false,
    }
}

fn are_fields(fields: &[Field], wanted: &[(&str, Form)]) -> bool {
    if fields.len() != wanted.len() {
        return false;
    }
    for (field, (name, form)) in fields.iter().zip(wanted) {
        if field.name.as_str() != *name || field.ty.form() != *form {
            return false;
        }
    }
    true
}

fn object(alloc: Global, first: Field, second: Field) -> Result<Ty, AllocError> {
    let mut fields = Vec::new(alloc);
    fields.push(first)?;
    fields.push(second)?;
    Ok(Ty::Object { fields, rest: None })
}

/// Two objects that both have a field of one name, spelled in different ASCII case.
fn fused_objects(alloc: Global) -> Result<Ty, AllocError> {
    let a = object(
        alloc,
        field(alloc, "a", Ty::Number)?,
        field(alloc, "B", Ty::String)?,
    )?;
    let b = object(
        alloc,
        field(alloc, "b", Ty::Bool)?,
        field(alloc, "c", Ty::Null)?,
    )?;
    fuse(alloc, a, b)
}

static FUSED: [(&str, Form); 3] = [("a", Form::Number), ("B", Form::String), ("c", Form::Null)];

fn fused_fields() -> &'static [(&'static str, Form)] {
    &FUSED
}

#[test]
fn objects_fuse_by_their_fields(rt: HostRuntime) -> Result<(), Fail> {
    let both = fused_objects(rt.alloc())?;
    assert!(rt; is_object(&both, fused_fields()));
    Ok(())
}

static TAKEN: [(&str, Form); 2] = [("head_ref", Form::String), ("event", Form::Any)];

fn taken_fields() -> &'static [(&'static str, Form)] {
    &TAKEN
}

/// Whether the type of an expression is that of `github`.
fn is_github(alloc: Global, content: &str) -> Result<bool, AllocError> {
    let scope = step_run(alloc)?;
    let Ok(expr) = parse_expr(alloc, content)? else {
        return Ok(false);
    };
    let mut out = Vec::new(alloc);
    let ty = type_of(alloc, &scope, &expr, &mut out)?;
    Ok(is_object(&ty, taken_fields()))
}

#[test]
fn contexts_are_taken_out_as_they_were(rt: HostRuntime) -> Result<(), Fail> {
    assert!(rt; is_github(rt.alloc(), "github")?);
    assert!(rt; is_github(rt.alloc(), "github || github")?);
    Ok(())
}

/// `first`, followed by `more` repeated `times` times.
fn repeated(alloc: Global, first: &str, more: &str, times: usize) -> Result<String, AllocError> {
    let mut content = String::from_str(alloc, first)?;
    for _ in 0..times {
        content.push_str(more)?;
    }
    Ok(content)
}

/// The form of the type of an expression, if it has no fault.
fn form_of(alloc: Global, scope: &Scope, content: &str) -> Result<Option<Form>, AllocError> {
    let Ok(expr) = parse_expr(alloc, content)? else {
        return Ok(None);
    };
    let mut out = Vec::new(alloc);
    let ty = type_of(alloc, scope, &expr, &mut out)?;
    Ok(if out.len() == 0 {
        Some(ty.form())
    } else {
        None
    })
}

fn form_in_a_run(alloc: Global, content: &str) -> Result<Option<Form>, AllocError> {
    let scope = step_run(alloc)?;
    form_of(alloc, &scope, content)
}

#[test]
fn long_expressions(rt: HostRuntime) -> Result<(), Fail> {
    let path = repeated(rt.alloc(), "github.event", ".a", 10400)?;
    assert!(rt; form_in_a_run(rt.alloc(), path.as_str())? == Some(Form::Any));
    let chain = repeated(rt.alloc(), "1", "||1", 6900)?;
    assert!(rt; form_in_a_run(rt.alloc(), chain.as_str())? == Some(Form::Number));
    Ok(())
}
