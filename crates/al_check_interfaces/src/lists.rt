//! The parameters of an interface. The positions of their names, and which of them are mandatory,
//! are found once for all calls.
ghost use Rattle.std.specs.Prelude.{◌≡◌, find, map, IfOk};
ghost use Rattle.std.specs.Option.{option_copied};
ghost use Rattle.al_base.specs.NamePlaces.{name_place, name_position};
ghost use Rattle.al_check_interfaces.specs.Parameters.{has_parameter, is_parameter, mandatory_of};

use crate::copies::copy_of_parameter;
use crate::interfaces::Parameter;
use al_base::NamePositions;
use std::alloc::{AllocError, Global};
use std::marker::Model;

/// Parameters in order, with different names; the position of each name; and those that are
/// mandatory. Contracts see the list. Finding one by name takes time logarithmic in their number,
/// and linear in the name's length.
#[derive(Drop)]
pub struct Parameters {
    parameters: Vec<Parameter>,
    positions: NamePositions,
    mandatory: Vec<Parameter>,
}

impl Model for Parameters {
    ghost use Rattle.std.specs.Prelude.{◌≡◌, List, map};
    ghost use Rattle.al_base.specs.NamePlaces.{name_place, name_position};
    ghost use Rattle.al_check_interfaces.specs.declared.interfaces.Parameter.{Parameter};
    ghost use Rattle.al_check_interfaces.specs.Parameters.{mandatory_of};

    ghost Value = { List Parameter };

    ghost view = { λ a. a.parameters.items };

    ghost invariant = { λ a. (name_position a.positions
        ≡ name_place (map (λ p. p.name) a.parameters.items))
        × (a.mandatory.items ≡ mandatory_of a.parameters.items) };
}

/// The position of the first parameter with each name.
fn positions_of(alloc: Global, parameters: &[Parameter]) -> Result<NamePositions, AllocError>
    ensures { IfOk result
        (λ p. name_position p ≡ name_place (map (λ x. x.name) parameters.now)) }
{
    let mut names = Vec::with_capacity(alloc, parameters.len())?;
    for parameter in parameters {
        names.push(parameter.name.as_bytes())?;
    }
    NamePositions::of(alloc, names.as_slice())
}

/// Copies of the mandatory parameters: each call has to give them.
fn mandatory_in(alloc: Global, parameters: &[Parameter]) -> Result<Vec<Parameter>, AllocError>
    ensures { IfOk result (λ found. found.items ≡ mandatory_of parameters.now) }
{
    let mut found = Vec::new(alloc);
    for parameter in parameters {
        if parameter.required && !parameter.has_default {
            found.push(copy_of_parameter(alloc, parameter)?)?;
        }
    }
    Ok(found)
}

impl Parameters {
    /// The list of these parameters. Fails with `AllocError` when out of memory.
    pub(crate) fn new(parameters: Vec<Parameter>) -> Result<Parameters, AllocError>
        ensures { IfOk result (λ l. l ≡ parameters.items) }
    {
        let alloc = *parameters.allocator();
        let positions = positions_of(alloc, parameters.as_slice())?;
        let mandatory = mandatory_in(alloc, parameters.as_slice())?;
        Ok(Parameters {
            parameters,
            positions,
            mandatory,
        })
    }

    /// All of them.
    pub(crate) fn as_slice(&self) -> &[Parameter]
        ensures { result.now ≡ self.now }
    {
        self.parameters.as_slice()
    }

    /// The mandatory ones, in order: those that are required and have no default.
    ///
    /// # Errors
    ///
    /// `AllocError` if memory runs out.
    pub fn mandatory(&self) -> Result<Vec<&Parameter>, AllocError>
        ensures { IfOk result (λ v. map (λ p. p.now) v.items ≡ mandatory_of self.now) }
    {
        self.mandatory.iter().collect(*self.mandatory.allocator())
    }

    /// The first parameter with a name, ignoring ASCII case; `None` if there is none.
    ///
    /// # Errors
    ///
    /// `AllocError` if memory runs out.
    pub fn find(&self, name: &[u8]) -> Result<Option<&Parameter>, AllocError>
        ensures { IfOk result (λ p. option_copied p ≡ find (is_parameter name.now) self.now) }
    {
        match self.positions.get(name)? {
            Some(i) => Ok(Some(&self.parameters[i])),
            None => Ok(None),
        }
    }

    /// Whether a parameter has a name, ignoring ASCII case.
    ///
    /// # Errors
    ///
    /// `AllocError` if memory runs out.
    pub fn has(&self, name: &[u8]) -> Result<bool, AllocError>
        ensures { IfOk result (λ b. b ≡ has_parameter self.now name.now) }
    {
        Ok(self.positions.get(name)?.is_some())
    }
}

impl PartialEq for Parameters {
    ghost use Rattle.std.specs.Cmp.{partial_equiv_from_equiv};
    ghost use Rattle.std.specs.Cmp.Lexicographic.{pointwise, lists_equiv};
    ghost use Rattle.al_check_interfaces.specs.contracts.interfaces.ParameterPartialEq.TheImpl as one;
    ghost use Rattle.al_check_interfaces.specs.contracts.interfaces.ParameterEq.TheImpl.Laws as one_laws;

    ghost eq = { pointwise one.ghosts.eq };

    ghost laws = { partial_equiv_from_equiv (lists_equiv one_laws.laws-law) };

    fn eq(&self, other: &Parameters) -> bool {
        self.parameters.as_slice() == other.parameters.as_slice()
    }
}

impl Eq for Parameters {
    ghost use Rattle.std.specs.Cmp.Lexicographic.{lists_equiv};
    ghost use Rattle.al_check_interfaces.specs.contracts.interfaces.ParameterEq.TheImpl.Laws as one_laws;

    ghost laws = { lists_equiv one_laws.laws-law };
}
