//! The keys of jobs and the ids of steps.

ghost use Rattle.al_rules_settings.specs.Ids.{ids_faults};
ghost use Rattle.al_rules_settings.specs.Views.{named_of};
ghost use Rattle.std.specs.Prelude.{◌≡◌, ◌++◌, map, OnOk};

use crate::reports::{Named, report_unless};
use al_base::{FaultSink, NamePositions, RuleCode};
use al_rules_formats::is_id;
use std::alloc::AllocError;

/// Adds the faults of the keys of jobs or the ids of steps: invalid ones, and those that repeat an
/// earlier one, ignoring ASCII case.
///
/// Fails with `AllocError` when out of memory.
pub fn check_ids(ids: &[Named<'_>], faults: &mut FaultSink) -> Result<(), AllocError>
    ensures { OnOk result (faults.new ≡ faults.old ++ ids_faults (map named_of ids.now)) }
{
    for id in ids {
        report_unless(is_id(id.text), RuleCode::WrongId, *id, faults)?;
    }
    let texts: Vec<&[u8]> = ids.iter().map(|id| id.text).collect(faults.alloc())?;
    let positions = NamePositions::of(faults.alloc(), texts.as_slice())?;
    for (i, id) in ids.iter().enumerate() {
        report_unless(positions.is_first(i), RuleCode::RepeatedId, *id, faults)?;
    }
    Ok(())
}
