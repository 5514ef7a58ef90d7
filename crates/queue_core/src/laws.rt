//! Laws of the machine: contracts on empty bodies, called for what they say.
ghost use Rattle.std.specs.Prelude.{ℕ, ◌≡◌, ◌+◌, ◌∷◌, ◌++◌, [], Bool, List, count_by, fold};
ghost use Rattle.std.specs.FinMap.{FinMap};
ghost use Rattle.std.specs.List.{AllByRecursion};
ghost use Rattle.queue_core.specs.Book.{IsDecisionOn};
ghost use Rattle.queue_types.specs.Event.{Event, Decision};
ghost use Rattle.queue_core.specs.Grants.{pages_to};
ghost use Rattle.queue_types.specs.declared.event.GrantRow.{GrantRow};
ghost use Rattle.queue_core.specs.Limits.{IsFair, IsSoundChange};
ghost use Rattle.queue_core.specs.Visible.{in_order};
ghost use Rattle.queue_core.specs.Order.{IsLive, AreNewestFirst, AreByRank, AreRising};
ghost use Rattle.queue_types.specs.declared.event.WhichJobs.TheVariants.{NotCompleted, Completed as CompletedJobs};
ghost use Rattle.queue_types.specs.declared.job.Job.{Job};
ghost use Rattle.queue_core.specs.Runs.{Place, IsPlace, run, MovesAlong};
ghost use Rattle.queue_types.specs.Settings.{SettingValues, AreSettings};
ghost use Rattle.queue_core.specs.Sound.{IsSound, Balances};
ghost use Rattle.queue_core.specs.World.{World, AreNew, cut, empty_queue, grant_cmp, granted_in, made_on, put_grant};

/// From a sound world every place of a run, a moment with an event within the limits or with nothing,
/// leaves a sound world: jobs move along the allowed pairs alone, and in every account pages granted are
/// those that are free, reserved and printed. The run of a joined list is the runs of its parts in turn.
pub fn run_keeps()
    ensures sound { (w : World) (ps : List Place) → IsSound w → AllByRecursion IsPlace ps → IsSound (run w ps) }
    ensures balances { (w : World) (ps : List Place) → IsSound w → AllByRecursion IsPlace ps → Balances (run w ps) }
    ensures moves { (w : World) (ps : List Place) (p : Place) → IsSound w → AllByRecursion IsPlace ps → IsPlace p → MovesAlong (run w ps) (run w (ps ++ p ∷ [])) }
    ensures joined { (w : World) (ps qs : List Place) → run w (ps ++ qs) ≡ run (run w ps) qs }
{}

/// The scene that is cut from a sound world is one that `decide` takes.
pub fn cut_is_fair()
    ensures { (w : World) (now : ℕ) (e : Event) → IsSound w → IsFair (cut w now e) }
{}

/// A queue without jobs, accounts and reports is sound.
pub fn empty_is_sound()
    ensures { (s : SettingValues) → AreSettings s → IsSound (empty_queue s) }
{}

/// A decision on a sound world changes each job once, in the order of their numbers, and each becomes one within the limits. A document is of
/// one of these jobs. The world that the decision makes is sound, and its jobs have moved along the allowed pairs. Its grants are under batches and
/// accounts that have none.
pub fn decisions_are_sound()
    ensures within { (w : World) (d : Decision) → IsSound w → IsDecisionOn w d → IsSoundChange d.change }
    ensures made { (w : World) (d : Decision) → IsSound w → IsDecisionOn w d → IsSound (made_on d.change w) }
    ensures moves { (w : World) (d : Decision) → IsSound w → IsDecisionOn w d → MovesAlong w (made_on d.change w) }
    ensures rising { (w : World) (d : Decision) → IsSound w → IsDecisionOn w d → AreRising d.change.jobs }
    ensures new_grants { (w : World) (d : Decision) → IsSound w → IsDecisionOn w d → AreNew w.grants d.change.grants }
{}

/// The pages that new grants add to an account are those of its rows.
pub fn new_grants_add_up()
    ensures { (a : List ℕ) (rows : List GrantRow) (m : FinMap grant_cmp ℕ) → AreNew m rows → granted_in a (fold put_grant m rows) ≡ granted_in a m + pages_to a rows }
{}

/// The list that `in_order` makes of a list of jobs, as Get-Jobs shows them. 'completed': it has each of them as often,
/// from the one that ended last, and of one moment from the greatest number. 'not-completed': it has each of them as often
/// where all are live; where the list's numbers rise, they stand by the rank of their state (those that the device has,
/// those that it may start, those that are on hold or still take documents), and of one rank by number.
pub fn get_jobs_in_order()
    ensures completed_all { (p : Job → Bool) (js : List Job) → count_by p (in_order CompletedJobs js) ≡ count_by p js }
    ensures completed_newest { (js : List Job) → AreNewestFirst (in_order CompletedJobs js) }
    ensures live_all { (p : Job → Bool) (js : List Job) → AllByRecursion IsLive js → count_by p (in_order NotCompleted js) ≡ count_by p js }
    ensures live_by_rank { (js : List Job) → AreRising js → AreByRank (in_order NotCompleted js) }
{}
