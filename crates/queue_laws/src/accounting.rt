//! What the office is told of an account (docs/accounts.md).
ghost use Rattle.std.specs.Prelude.{ℕ, pos, ◌≡◌, ◌↔◌, ◌+◌, ◌+ℤ◌, ◌&&◌, Bool, List, IsSome, Some, sum_by, count_by};
ghost use Rattle.std.specs.FinMap.{get};
ghost use Rattle.queue_types.specs.Job.{owed};
ghost use Rattle.queue_core.specs.Order.{AreRising};
ghost use Rattle.queue_core.specs.Shown.{sheet_of};
ghost use Rattle.queue_core.specs.Sound.{IsSound};
ghost use Rattle.queue_core.specs.World.{World, rows, granted};
ghost use Rattle.queue_types.specs.declared.job.Job.{Job};
ghost use Rattle.queue_types.specs.declared.sheet.AccountSheet.{AccountSheet};
ghost use Rattle.queue_laws.specs.Jobs.{is_owned_by, takes_pages};

/// There is a sheet of each account that has a grant, and of no other. It tells the pages that are granted to the account,
/// and those that are free: what is granted is what is free, reserved and printed together. It has each job of the
/// account's owner for which pages are set aside or of which pages were printed, once, and no other, by number, those that
/// ended too; the pages reserved are the sum of what is set aside for these jobs, and those printed the sum of their counts.
pub fn sheets_are_balanced()
    ensures there { (w : World) (a : List ℕ) → IsSound w → IsSome (sheet_of w a) ↔ ((batch : List ℕ) × IsSome (get w.grants (batch, a))) }
    ensures amounts { (w : World) (a : List ℕ) (s : AccountSheet) → sheet_of w a ≡ Some s → (s.account ≡ a) × (s.granted ≡ granted a w) × (get w.free a ≡ Some s.free) }
    ensures balance { (w : World) (a : List ℕ) (s : AccountSheet) → IsSound w → sheet_of w a ≡ Some s → pos s.granted ≡ s.free +ℤ pos (s.reserved + s.printed) }
    ensures reserved { (w : World) (a : List ℕ) (s : AccountSheet) → sheet_of w a ≡ Some s → s.reserved ≡ sum_by owed s.jobs }
    ensures printed { (w : World) (a : List ℕ) (s : AccountSheet) → sheet_of w a ≡ Some s → s.printed ≡ sum_by (λ j. j.count) s.jobs }
    ensures each { (w : World) (a : List ℕ) (s : AccountSheet) (p : Job → Bool) → sheet_of w a ≡ Some s → count_by p s.jobs ≡ count_by (λ j. is_owned_by a j && takes_pages j && p j) (rows w) }
    ensures in_order { (w : World) (a : List ℕ) (s : AccountSheet) → IsSound w → sheet_of w a ≡ Some s → AreRising s.jobs }
{}
