//! The row of the table `meta`, with those of `policy` and `operators`.
ghost use Rattle.std.specs.Prelude.{◌≡◌, ◌↔◌, Err, IfOk, IfSome, IsOk, IsSome, IsTrue, option_map};
ghost use Rattle.queue_types.specs.Operators.{AreOperators};
ghost use Rattle.queue_types.specs.Settings.{AreSettings};
ghost use Rattle.queue_rows.specs.Meta.{IsSoundMeta, settings_in};
ghost use Rattle.queue_rows.specs.Versions.{FitsPolicy, IsOnePolicy, keep_in, operators_in};

use crate::rows::{FIRST_SCHEMA, MetaRow, PolicyRow, SCHEMA, SECOND_SCHEMA};
use queue_types::operators::OperatorNames;
use queue_types::settings::{SettingFault, Settings};
use queue_types::text::Text;
use std::alloc::{AllocError, Global};

/// The settings in the row, with the seconds for which a job may be held and the operators. Bad exactly where they are not within their
/// limits; its other error is want of memory.
pub fn settings_of(
    alloc: Global,
    row: &MetaRow,
    keep: u32,
    operators: OperatorNames,
) -> Result<Settings, SettingFault>
    ensures ok { IfOk result (λ s. s ≡ settings_in keep operators row.now) }
    ensures fits { IsOk result → AreSettings (settings_in keep operators row.now) }
    ensures bad { (result ≡ Err SettingFault.Bad) ↔ (¬ AreSettings (settings_in keep operators row.now)) }
{
    Settings::new(
        alloc,
        row.uri.as_str(),
        row.name.as_str(),
        row.estimate,
        row.epoch,
        keep,
        operators,
    )
}

/// The seconds in the row of `policy`, 0 where there is none.
pub fn keep_of(policy: &Option<Vec<PolicyRow>>) -> u32
    ensures { result ≡ keep_in (option_map (λ v. v.items) policy.now) }
{
    let Some(rows) = policy else {
        return 0;
    };
    match rows.as_slice() {
        [] => 0,
        [row, ..] => row.keep,
    }
}

/// The operators that the rows name, and none where there is no such table; None where they may not be that. Its one error is want of
/// memory.
pub fn operators_of(
    alloc: Global,
    operators: &Option<Vec<Text>>,
) -> Result<Option<OperatorNames>, AllocError>
    ensures some { IfOk result (λ o. IfSome o (λ names. names ≡ operators_in (option_map (λ v. v.items) operators.now))) }
    ensures limits { IfOk result (λ o. IsSome o ↔ AreOperators (operators_in (option_map (λ v. v.items) operators.now))) }
{
    match operators {
        Some(names) => OperatorNames::from_ordered(alloc, names.as_slice()),
        None => Ok(Some(OperatorNames::none(alloc))),
    }
}

fn is_one_policy(rows: &[PolicyRow]) -> bool
    ensures { IsTrue result ↔ IsOnePolicy rows.now }
{
    let [row] = rows else {
        return false;
    };
    row.one == 1
}

/// It is the number of the schema with these tables, and `policy` has its one row.
fn fits_policy(schema: u32, policy: &Option<Vec<PolicyRow>>, operators: &Option<Vec<Text>>) -> bool
    ensures { IsTrue result ↔ FitsPolicy schema (option_map (λ v. v.items) policy.now) (option_map (λ v. v.items) operators.now) }
{
    match (policy, operators) {
        (None, None) => schema == FIRST_SCHEMA,
        (None, Some(_)) => false,
        (Some(rows), None) => schema == SECOND_SCHEMA && is_one_policy(rows.as_slice()),
        (Some(rows), Some(_)) => schema == SCHEMA && is_one_policy(rows.as_slice()),
    }
}

/// The row has the number of the schema with these tables, and the settings are within their limits.
pub(crate) fn is_sound_meta(
    alloc: Global,
    row: &MetaRow,
    policy: &Option<Vec<PolicyRow>>,
    operators: &Option<Vec<Text>>,
) -> Result<bool, AllocError>
    ensures { IfOk result (λ b. IsTrue b ↔ IsSoundMeta row.now (option_map (λ v. v.items) policy.now) (option_map (λ v. v.items) operators.now)) }
{
    if row.one != 1 || !fits_policy(row.schema, policy, operators) {
        return Ok(false);
    }
    let Some(operators) = operators_of(alloc, operators)? else {
        return Ok(false);
    };
    match settings_of(alloc, row, keep_of(policy), operators) {
        Ok(_) => Ok(true),
        Err(SettingFault::Bad) => Ok(false),
        Err(SettingFault::Memory) => Err(AllocError),
    }
}
