//! The moment of a connection, in seconds of the printer's up time.
ghost use Rattle.std.specs.Prelude.{◌≡◌, ◌+ℤ◌, ◌-ℤ◌, ◌≤ℤ◌, ◌<ℤ◌, pos, IfOk};
ghost use Rattle.queue_core.specs.Limits.{IsMoment};

use queue_types::limits::LAST_MOMENT;
use std::io;
use std::rt::Clock;

/// The moment at a second of the clock: 1 at the printer's epoch and before it, then one more each second, up to the last.
fn moment_at(epoch: i64, second: u64) -> u32
    ensures moment { IsMoment result }
    ensures early { pos second ≤ℤ epoch → result ≡ 1 }
    ensures between { epoch ≤ℤ pos second → (pos second -ℤ epoch) <ℤ pos 2147483647 → pos result ≡ (pos second -ℤ epoch) +ℤ pos 1 }
    ensures late { pos 2147483646 ≤ℤ (pos second -ℤ epoch) → result ≡ 2147483647 }
{
    let up = i128::from(second) - i128::from(epoch) + 1;
    up.clamp(1, i128::from(LAST_MOMENT)) as u32
}

/// The present moment of a printer with this epoch.
pub fn present_moment<R: Clock>(clock: &R, epoch: i64) -> io::Result<u32>
    ensures { IfOk result IsMoment }
{
    let second = clock.since_1970()?.as_secs();
    Ok(moment_at(epoch, second))
}
