//! The example of `al_expr`: the type of an expression under a scope.

use al_expr::{Form, Scope, parse_expr, type_of};
use al_text::Fault;
use std::alloc::{AllocError, Global};

/// The form of a content's type where `scope` is what it can refer to, such as a boolean for
/// `github.ref == 'x'`; `None` if it isn't an expression. Its faults are added to a list.
fn form_of(
    alloc: Global,
    scope: &Scope,
    content: &str,
    faults: &mut Vec<Fault>,
) -> Result<Option<Form>, AllocError> {
    match parse_expr(alloc, content)? {
        Ok(expr) => Ok(Some(type_of(alloc, scope, &expr, faults)?.form())),
        Err(fault) => {
            faults.push(fault)?;
            Ok(None)
        }
    }
}

// Tests:

use crate::expressions::scope;
use al_text::{Code, ExpressionCode};

fn has_code(faults: &[Fault], wanted: Option<ExpressionCode>) -> bool {
    match (faults, wanted) {
        ([], None) => true,
        ([fault], Some(code)) => fault.code == Code::Expression(code),
        _ => false,
    }
}

fn has_form(
    alloc: Global,
    content: &str,
    form: Option<Form>,
    code: Option<ExpressionCode>,
) -> bool {
    let mut faults = Vec::new(alloc);
    let found = form_of(alloc, &scope(alloc), content, &mut faults);
    found == Ok(form) && has_code(&faults, code)
}

#[test]
fn a_call_is_a_boolean(rt: HostRuntime) {
    assert!(rt; has_form(rt.alloc(), "startsWith('ab', 'a')", Some(Form::Bool), None));
}

#[test]
fn a_property_that_is_not_there(rt: HostRuntime) {
    let code = Some(ExpressionCode::UndefinedProperty);
    assert!(rt; has_form(rt.alloc(), "github.reff", Some(Form::Any), code));
}

#[test]
fn no_expression(rt: HostRuntime) {
    assert!(rt; has_form(rt.alloc(), "a.", None, Some(ExpressionCode::EndsEarly)));
}
