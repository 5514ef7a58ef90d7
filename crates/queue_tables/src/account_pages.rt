//! The pages of an account, as its row has them.
ghost use Rattle.std.specs.Prelude.{◌≡◌, ◌≢◌, ◌<◌, ◌≤◌, ◌^◌, ◌+◌, ◌+ℤ◌, pos, ℕ, ℤ, [], ◌∷◌, IfOk, IfErr, OnOk, IsTrue, option_map};
ghost use Rattle.std.specs.FinMap.{get};
ghost use Rattle.sqlite.specs.Held.{state};
ghost use Rattle.sqlite.specs.Order.{column};
ghost use Rattle.sqlite.specs.State.{HasCleanDisk};
ghost use Rattle.sqlite.specs.declared.types.Value.TheVariants.{Int};
ghost use Rattle.queue_tables.specs.Accounts.{pages_of};
ghost use Rattle.queue_tables.specs.Telling.{ReadsQueue};

use crate::fault::Fault;
use crate::read::value;
use crate::select::select;
use queue_types::limits::MOST_GRANTED_PAGES;
use sqlite::{Alter, Connection, Row, params};

/// The pages of an account: free ones, which may be below zero, and the sums over its owner's jobs.
#[derive(Clone, Copy)]
pub struct AccountPages {
    pub free: i64,
    pub reserved: u64,
    pub printed: u64,
}

impl AccountPages {
    /// The pages that were granted: those that are free, reserved and printed, together. They are damaged where they are
    /// not 0 to 1,000,000,000.
    pub fn granted(self) -> Result<u32, Fault>
        ensures sum { IfOk result (λ n. pos n ≡ self.free +ℤ pos (self.reserved + self.printed)) }
        ensures most { IfOk result (λ n. n ≤ 1000000000) }
        ensures damaged { IfErr result (λ _. (n : ℕ) → n ≤ 1000000000 → self.reserved + self.printed < 2 ^ 64 → pos n ≢ self.free +ℤ pos (self.reserved + self.printed)) }
    {
        let Some(used) = self.reserved.checked_add(self.printed) else {
            return Err(Fault::Damaged);
        };
        match used.checked_add_signed(self.free) {
            Some(granted) if granted <= u64::from(MOST_GRANTED_PAGES) => Ok(granted as u32),
            _ => Err(Fault::Damaged),
        }
    }
}

/// The pages in those columns.
fn read_pages(row: &Row) -> Result<AccountPages, Fault>
    ensures free { IfOk result (λ p. column row.now 0 ≡ Int p.free) }
    ensures reserved { IfOk result (λ p. column row.now 1 ≡ Int (pos p.reserved)) }
    ensures printed { IfOk result (λ p. column row.now 2 ≡ Int (pos p.printed)) }
    ensures damaged { IfErr result (λ e. e ≡ Fault.Damaged → (free : ℤ) (reserved printed : ℕ) → row.now ≢ Int free ∷ Int (pos reserved) ∷ Int (pos printed) ∷ []) }
{
    let free = value(row, 0)?;
    let reserved = value(row, 1)?;
    let printed = value(row, 2)?;
    Ok(AccountPages {
        free,
        reserved,
        printed,
    })
}

/// The pages of the account of that name, where it is there. Damaged is told only where the tables hold no sound queue.
pub fn find_account<S: Alter>(
    conn: &mut Connection<S>,
    account: &str,
) -> Result<Option<AccountPages>, Fault>
    ensures reads { ReadsQueue (state S.Store conn.old) (state S.Store conn.new) result (λ w found. found ≡ option_map (pages_of w account.now) (get w.free account.now)) }
    ensures live { HasCleanDisk (state S.Store conn.new) → OnOk result (IsTrue (state S.Store conn.new).is_open) }
{
    let found = select(
        conn,
        "SELECT free, reserved, printed FROM accounts WHERE name = ?1",
        params![account],
    )?;
    match found.first() {
        None => Ok(None),
        Some(row) => {
            let pages = read_pages(row)?;
            Ok(Some(pages))
        }
    }
}
