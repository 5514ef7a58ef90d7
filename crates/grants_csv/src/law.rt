//! What the definitions of account files promise: laws over them, in functions that do nothing.
ghost use Rattle.std.specs.Prelude.{◌≡◌, ◌∷◌, [], List, IfSome, Ok, Option, decimal, ℕ};
ghost use Rattle.grants_csv.specs.File.{row_of};
ghost use Rattle.grants_csv.specs.Import.{Asks};
ghost use Rattle.queue_core.specs.Limits.{IsEvent, IsGrantRow};
ghost use Rattle.queue_types.specs.Event.{Event};
ghost use Rattle.queue_types.specs.declared.event.GrantRow.{GrantRow};

/// What an account file asks is an event within the machine's limits.
pub fn files_are_events()
    ensures { (file : List ℕ) (e : Option Event) → Asks file e → IfSome e IsEvent }
{}

/// Each grant within the machine's limits is what a row of a file says, by its batch, its account and its pages in decimal.
pub fn grants_have_rows()
    ensures { (g : GrantRow) (n : ℕ) → IsGrantRow g → row_of n (g.batch ∷ g.account ∷ decimal g.pages ∷ []) ≡ Ok g }
{}
