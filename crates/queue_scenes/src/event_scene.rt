//! The rows that an event needs.
ghost use Rattle.std.specs.Prelude.{◌≡◌, IfOk, OnOk, IsTrue};
ghost use Rattle.sqlite.specs.Held.{state};
ghost use Rattle.sqlite.specs.State.{HasCleanDisk};
ghost use Rattle.queue_types.specs.Event.{tell, grant, event_of};
ghost use Rattle.queue_core.specs.Limits.{IsFair};
ghost use Rattle.queue_core.specs.World.{cut};
ghost use Rattle.queue_tables.specs.Telling.{ReadsQueue};

use crate::accounts::owner_rows;
use crate::call_scene::scene_of_call;
use crate::expiry_scene::scene_of_expire;
use crate::grants::known_rows;
use crate::jobs::only_job;
use crate::meta::next_number;
use crate::reports::kept_report;
use queue_core::{grants_scene, report_scene};
use queue_tables::fault::Fault;
use queue_types::event::{Event, GrantRow, Report, Scene};
use queue_types::settings::Settings;
use sqlite::{Alter, Connection};
use std::alloc::Global;

/// The rows that a report needs.
fn scene_of_report<S: Alter>(
    alloc: Global,
    conn: &mut Connection<S>,
    settings: &Settings,
    r: &Report,
) -> Result<Scene, Fault>
    ensures reads { ReadsQueue (state S.Store conn.old) (state S.Store conn.new) result (λ w s. settings.now ≡ w.settings → s ≡ cut w 0 (tell r.now)) }
    ensures live { HasCleanDisk (state S.Store conn.new) → OnOk result (IsTrue (state S.Store conn.new).is_open) }
    ensures fair { IfOk result IsFair }
{
    let report = kept_report(conn, r.job, r.seq)?;
    let jobs = only_job(alloc, conn, r.job)?;
    let free = owner_rows(alloc, conn, jobs.as_slice())?;
    let scene = report_scene(alloc, settings, jobs, free, report)?;
    Ok(scene)
}

/// The rows that an account file needs.
fn scene_of_grants<S: Alter>(
    alloc: Global,
    conn: &mut Connection<S>,
    settings: &Settings,
    rows: &[GrantRow],
) -> Result<Scene, Fault>
    ensures reads { ReadsQueue (state S.Store conn.old) (state S.Store conn.new) result (λ w s. settings.now ≡ w.settings → s ≡ cut w 0 (grant rows.now)) }
    ensures live { HasCleanDisk (state S.Store conn.new) → OnOk result (IsTrue (state S.Store conn.new).is_open) }
    ensures fair { IfOk result IsFair }
{
    let next = next_number(conn)?;
    let known = known_rows(alloc, conn, rows)?;
    let scene = grants_scene(alloc, settings, known, next)?;
    Ok(scene)
}

/// The rows that an event needs at this moment, under the settings of the queue. Whatever rows the tables hold, they hold after it,
/// where the connection is open still; whatever they hold after it, they held before; and a scene is within its limits
/// on any disk. Damaged is told only where the tables of an open connection hold no sound queue.
pub fn scene<S: Alter>(
    alloc: Global,
    conn: &mut Connection<S>,
    settings: &Settings,
    now: u32,
    event: &Event<'_>,
) -> Result<Scene, Fault>
    ensures reads { ReadsQueue (state S.Store conn.old) (state S.Store conn.new) result (λ w s. settings.now ≡ w.settings → s ≡ cut w now (event_of event.now)) }
    ensures live { HasCleanDisk (state S.Store conn.new) → OnOk result (IsTrue (state S.Store conn.new).is_open) }
    ensures fair { IfOk result IsFair }
{
    match event {
        Event::Ask { caller, call } => scene_of_call(alloc, conn, settings, caller, call),
        Event::Report(r) => scene_of_report(alloc, conn, settings, r),
        Event::Grants(rows) => scene_of_grants(alloc, conn, settings, rows),
        Event::Expire => scene_of_expire(alloc, conn, settings, now),
    }
}
