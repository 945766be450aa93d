//! Copies of interfaces.
ghost use Rattle.std.specs.Prelude.{◌≡◌, IfOk};

use crate::interfaces::{Interface, Parameter, Signature};
use crate::lists::Parameters;
use std::alloc::{AllocError, Global};

pub(crate) fn copy_of_parameter(
    alloc: Global,
    parameter: &Parameter,
) -> Result<Parameter, AllocError>
    ensures { IfOk result (λ copy. copy ≡ parameter.now) }
{
    Ok(Parameter {
        name: parameter.name.copy(alloc)?,
        required: parameter.required,
        has_default: parameter.has_default,
        takes: parameter.takes,
    })
}

fn copy_of_parameters(alloc: Global, parameters: &Parameters) -> Result<Parameters, AllocError>
    ensures { IfOk result (λ copy. copy ≡ parameters.now) }
{
    let mut copies = Vec::new(alloc);
    for parameter in parameters.as_slice() {
        copies.push(copy_of_parameter(alloc, parameter)?)?;
    }
    Parameters::new(copies)
}

impl Interface {
    /// A copy, with memory of its own.
    ///
    /// # Errors
    ///
    /// `AllocError` if memory runs out.
    pub fn copy(&self, alloc: Global) -> Result<Interface, AllocError>
        ensures { IfOk result (λ copy. copy ≡ self.now) }
    {
        let Interface::Readable(signature) = self else {
            return Ok(Interface::Unreadable);
        };
        let name = match &signature.name {
            Some(name) => Some(name.copy(alloc)?),
            None => None,
        };
        Ok(Interface::Readable(Signature {
            name,
            role: signature.role,
            inputs: copy_of_parameters(alloc, &signature.inputs)?,
            secrets: copy_of_parameters(alloc, &signature.secrets)?,
            outputs: signature.outputs.copy(alloc)?,
        }))
    }
}
