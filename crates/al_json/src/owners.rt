//! What the undefined properties of a file are read from.

use crate::json::Json;
use al_text::{Code, ExpressionCode, Fault};
use std::alloc::{AllocError, Global};
use std::collections::BTreeMap;

/// For each undefined property of a file, by the offset at which it begins, the names before it in
/// its expression: first a context, then its properties, with `*` for `.*` and for an index that
/// isn't a string. There are none if the expression doesn't begin with a context.
#[derive(Drop)]
pub struct Owners {
    names: BTreeMap<u32, Vec<String>>,
}

fn is_undefined_property(fault: &Fault) -> bool {
    matches!(
        fault.code,
        Code::Expression(ExpressionCode::UndefinedProperty)
    )
}

impl Owners {
    /// No names yet for the undefined properties of these faults.
    pub fn of(alloc: Global, faults: &[&Fault]) -> Result<Owners, AllocError> {
        let mut names = BTreeMap::new(alloc);
        for fault in faults {
            if is_undefined_property(fault) {
                names.insert(fault.span.start, Vec::new(alloc))?;
            }
        }
        Ok(Owners { names })
    }

    /// Whether no property is undefined.
    pub fn is_empty(&self) -> bool {
        self.names.is_empty()
    }

    /// Whether an undefined property begins at an offset.
    pub fn has(&self, offset: u32) -> bool {
        self.names.contains_key(&offset)
    }

    /// Sets the names before the undefined property at an offset.
    pub fn set(&mut self, offset: u32, names: Vec<String>) {
        if let Some(place) = self.names.get_mut(&offset) {
            *place = names;
        }
    }
}

/// Writes the key `of` for a fault that is an undefined property, if there are names before it.
pub fn push_owner(json: &mut Json, owners: &Owners, fault: &Fault) -> Result<(), AllocError> {
    if !is_undefined_property(fault) {
        return Ok(());
    }
    match owners.names.get(&fault.span.start) {
        Some(names) if !names.is_empty() => {
            json.list_at("of")?;
            for name in names {
                json.text(name.as_str())?;
            }
            json.close(']')
        }
        _ => Ok(()),
    }
}
