//! The settings of the printer that a replay has.

ghost use Rattle.std.specs.Prelude.{◌≡◌, ◌∷◌, [], IfOk, codes};
ghost use Rattle.replay.specs.Replay.{settings};

use queue_types::operators::{NameFault, OperatorNames, operator_names};
use queue_types::settings::{SettingFault, Settings};
use std::alloc::{AllocError, Global};

const URI: &str = "ipp://localhost/ipp/print";

const NAME: &str = "release";

const ESTIMATE: u32 = 20;

const EPOCH: i64 = 0;

const KEEP: u32 = 3600;

const OPERATOR: &str = "opal";

fn replay_operators(alloc: Global) -> Result<OperatorNames, AllocError>
    ensures { IfOk result (λ o. o ≡ codes "opal" ∷ []) }
{
    match operator_names(alloc, &[OPERATOR]) {
        Ok(operators) => Ok(operators),
        Err(NameFault::Memory) => Err(AllocError),
        Err(_) => unreachable!("the name is within its limits"),
    }
}

/// The settings of a replay: the printer `release` at `ipp://localhost/ipp/print`, an estimate of 20 pages, the epoch 0,
/// 3,600 seconds for which a held or open job is kept, and the operator `opal`.
/// They are within their limits: the one error is want of memory.
pub fn replay_settings(alloc: Global) -> Result<Settings, AllocError>
    ensures { IfOk result (λ s. s ≡ settings) }
{
    let operators = replay_operators(alloc)?;
    match Settings::new(alloc, URI, NAME, ESTIMATE, EPOCH, KEEP, operators) {
        Ok(settings) => Ok(settings),
        Err(SettingFault::Memory) => Err(AllocError),
        Err(SettingFault::Bad) => unreachable!("the settings are within their limits"),
    }
}
