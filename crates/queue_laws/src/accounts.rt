//! What account files change.
ghost use Rattle.std.specs.Prelude.{ℕ, pos, ◌≡◌, ◌≢◌, ◌≤◌, ◌<◌, ◌+◌, ◌+ℤ◌, List, [], ◌∷◌, ◌++◌, Some, None, false, length};
ghost use Rattle.std.specs.FinMap.{get};
ghost use Rattle.std.specs.List.{AllByRecursion as Each};
ghost use Rattle.queue_types.specs.Event.{grant};
ghost use Rattle.queue_core.specs.Machine.{step};
ghost use Rattle.queue_core.specs.Runs.{Place, run};
ghost use Rattle.queue_core.specs.World.{World, granted};
ghost use Rattle.queue_types.specs.declared.event.GrantRow.{GrantRow};
ghost use Rattle.queue_types.specs.declared.event.GrantRefusal.{GrantRefusal};
ghost use Rattle.queue_types.specs.declared.event.GrantRefusal.TheVariants.{Conflict, TooMany};
ghost use Rattle.queue_types.specs.declared.event.Reply.TheVariants.{Added, NotAdded};
ghost use Rattle.queue_laws.specs.Granting.{IsGranted, is_named, is_account_of, free_pages};
ghost use Rattle.queue_laws.specs.Steps.{after, answer, unchanged, LeadsTo};

use queue_core::new_grants_add_up;

/// An account file changes nothing but the grants under the batches and accounts of its rows, and the free pages of
/// those accounts.
pub fn account_files_change_accounts()
    ensures settings { (w : World) (now : ℕ) (file : List GrantRow) → (after w now (grant file)).settings ≡ w.settings }
    ensures jobs { (w : World) (now : ℕ) (file : List GrantRow) → (after w now (grant file)).jobs ≡ w.jobs }
    ensures next { (w : World) (now : ℕ) (file : List GrantRow) → (after w now (grant file)).next ≡ w.next }
    ensures reports { (w : World) (now : ℕ) (file : List GrantRow) → (after w now (grant file)).reports ≡ w.reports }
    ensures other_grants { (w : World) (now : ℕ) (file : List GrantRow) (b a : List ℕ) → is_named b a file ≡ false → get (after w now (grant file)).grants (b, a) ≡ get w.grants (b, a) }
    ensures other_accounts { (w : World) (now : ℕ) (file : List GrantRow) (a : List ℕ) → is_account_of a file ≡ false → get (after w now (grant file)).free a ≡ get w.free a }
{}

/// What was granted stays, and each row of a file that is accepted is granted afterwards. An account has as many
/// more free pages as are granted to it: no row counts twice. The answer counts each row, as new or as a repeat.
pub fn grants_count_once()
    ensures stay { (w : World) (now : ℕ) (file : List GrantRow) (b a : List ℕ) (pages : ℕ) → get w.grants (b, a) ≡ Some pages → get (after w now (grant file)).grants (b, a) ≡ Some pages }
    ensures granted { (w : World) (now : ℕ) (file : List GrantRow) (added repeats : ℕ) → answer w now (grant file) ≡ Added added repeats → Each (IsGranted (after w now (grant file)).grants) file }
    ensures free { (w : World) (now : ℕ) (file : List GrantRow) (a : List ℕ) → free_pages a (after w now (grant file)) +ℤ pos (granted a w) ≡ free_pages a w +ℤ pos (granted a (after w now (grant file))) }
    ensures counted { (w : World) (now : ℕ) (file : List GrantRow) (added repeats : ℕ) → answer w now (grant file) ≡ Added added repeats → added + repeats ≡ length file }
{
    new_grants_add_up();
}

/// A file that was accepted is all repeats whenever it comes again, whatever happened in between, and changes
/// nothing then.
pub fn repeated_files_change_nothing()
    ensures { (w v : World) (now later added repeats : ℕ) (file : List GrantRow) (ps : List Place) → LeadsTo w now (grant file) v (Added added repeats) → step (run v ps) later (grant file) ≡ unchanged (run v ps) (Added 0 (length file)) }
{}

/// What a file of one row does. Where its pages are granted already to its account under its batch it is a repeat, and
/// where other pages are it is refused; where none are it is refused if the account would have more than 1,000,000,000
/// pages granted, and else it is added. A file without rows does nothing.
pub fn one_row_is_taken()
    ensures none { (w : World) (now : ℕ) → step w now (grant []) ≡ unchanged w (Added 0 0) }
    ensures again { (w : World) (now : ℕ) (g : GrantRow) → get w.grants (g.batch, g.account) ≡ Some g.pages → step w now (grant (g ∷ [])) ≡ unchanged w (Added 0 1) }
    ensures conflict { (w : World) (now : ℕ) (g : GrantRow) (pages : ℕ) → get w.grants (g.batch, g.account) ≡ Some pages → pages ≢ g.pages → step w now (grant (g ∷ [])) ≡ unchanged w (NotAdded Conflict 1) }
    ensures too_many { (w : World) (now : ℕ) (g : GrantRow) → get w.grants (g.batch, g.account) ≡ None → 1000000000 < granted g.account w + g.pages → step w now (grant (g ∷ [])) ≡ unchanged w (NotAdded TooMany 1) }
    ensures new { (w : World) (now : ℕ) (g : GrantRow) → get w.grants (g.batch, g.account) ≡ None → granted g.account w + g.pages ≤ 1000000000 → answer w now (grant (g ∷ [])) ≡ Added 1 0 }
{}

/// The rows of a file are taken in order, all of them or none. Of two files in one, the first of which is refused, the
/// whole is refused for the same row; where the first would be accepted and after it the second refused, the whole is
/// refused for that row of the second; and where both would be accepted one after the other, the whole does what they
/// do.
pub fn files_are_taken_in_order()
    ensures front { (w : World) (now : ℕ) (gs hs : List GrantRow) (refusal : GrantRefusal) (n : ℕ) → answer w now (grant gs) ≡ NotAdded refusal n → step w now (grant (gs ++ hs)) ≡ unchanged w (NotAdded refusal n) }
    ensures rest { (w v : World) (now n added repeats : ℕ) (gs hs : List GrantRow) (refusal : GrantRefusal) → LeadsTo w now (grant gs) v (Added added repeats) → answer v now (grant hs) ≡ NotAdded refusal n → step w now (grant (gs ++ hs)) ≡ unchanged w (NotAdded refusal (length gs + n)) }
    ensures taken { (w v x : World) (now added more repeats again : ℕ) (gs hs : List GrantRow) → LeadsTo w now (grant gs) v (Added added repeats) → LeadsTo v now (grant hs) x (Added more again) → step w now (grant (gs ++ hs)) ≡ record { world = x; reply = Added (added + more) (repeats + again) } }
{
    new_grants_add_up();
}
