//! Interfaces of actions, with ample memory.

use al_check_interfaces::{Interface, interface_of};
use al_tree::FileKind;
use al_yaml::read_yaml;
use std::alloc::{AllocError, Global};

const ACTION: &[u8] = b"name: A
description: d
inputs:
  who:
    required: true
runs:
  using: node20
  main: m.js
";

const ACTION_OF_OTHER_DESCRIPTION: &[u8] = b"name: A
description: e
inputs:
  who:
    required: true
runs:
  using: node20
  main: m.js
";

const ACTION_WITHOUT_INPUTS: &[u8] = b"name: A
description: d
runs:
  using: node20
  main: m.js
";

// The interface of an action; `None` if it has a fault.
fn shown(alloc: Global, text: &[u8]) -> Result<Option<Interface>, AllocError> {
    if text.len() > 1_048_576 {
        return Ok(None);
    }
    match read_yaml(alloc, text)? {
        Ok(doc) => Ok(Some(interface_of(alloc, FileKind::Action, &doc.root)?)),
        Err(_) => Ok(None),
    }
}

// Whether two actions have no fault and equal interfaces.
fn show_the_same(alloc: Global, one: &[u8], other: &[u8]) -> Result<Option<bool>, AllocError> {
    let Some(one) = shown(alloc, one)? else {
        return Ok(None);
    };
    let Some(other) = shown(alloc, other)? else {
        return Ok(None);
    };
    Ok(Some(one == other))
}

#[test]
fn description_is_not_shown(rt: HostRuntime) -> Result<(), AllocError> {
    let same = show_the_same(rt.alloc(), ACTION, ACTION_OF_OTHER_DESCRIPTION)?;
    assert!(rt; same == Some(true));
    Ok(())
}

#[test]
fn inputs_are_shown(rt: HostRuntime) -> Result<(), AllocError> {
    let same = show_the_same(rt.alloc(), ACTION, ACTION_WITHOUT_INPUTS)?;
    assert!(rt; same == Some(false));
    Ok(())
}
