//! Sums by name. They are kept in a tree, since users pick the names of owners and could pick names that collide in a hash
//! table.
ghost use Rattle.std.specs.Prelude.{◌≡◌, ◌≤◌, ◌<◌, ◌+◌, ◌^◌, ℕ, List, IfOk, OnOk, bytes_eq, if◌then◌else◌};
ghost use Rattle.std.specs.Fn.{FnReturnsAt};
ghost use Rattle.queue_core.specs.Totals.{TellsAmounts, total, total_in};

use std::alloc::{AllocError, Global};
use std::collections::BTreeMap;

/// Adds the amount to the sum of the name.
#[tactic(auto, unfolding(crate::specs::Totals::total_in))]
fn add<'a>(sums: &mut BTreeMap<&'a str, u128>, name: &'a str, amount: u64) -> Result<(), AllocError>
    requires { total_in sums.old name.now + 2 ^ 64 ≤ 2 ^ 128 }
    ensures fits { amount < 2 ^ 64 }
    ensures added { OnOk result ((q : List ℕ) → total_in sums.new q ≡ total_in sums.old q + (if bytes_eq q name.now then amount else 0)) }
{
    *sums.entry(name)?.or_insert(0) += u128::from(amount);
    Ok(())
}

/// The sum of the amounts of each name. Each row has one name and one amount.
pub(crate) fn totals<'a, T, F: Fn(&'a T) -> (&'a str, u64)>(
    alloc: Global,
    rows: &'a [T],
    amount_of: F,
) -> Result<BTreeMap<&'a str, u128>, AllocError>
    requires { F.IsAlwaysCallable amount_of }
    ensures { IfOk result (λ m. (name : T → List ℕ) (amount : T → ℕ) → TellsAmounts (FnReturnsAt F.Fn amount_of) name amount → (q : List ℕ) → total_in m q ≡ total name amount q rows.now) }
{
    let mut sums = BTreeMap::new(alloc);
    for row in rows {
        let (name, amount) = amount_of(row);
        add(&mut sums, name, amount)?;
    }
    Ok(sums)
}

/// The sum of a name, 0 if no row has it.
#[tactic(auto, unfolding(crate::specs::Totals::total_in))]
pub(crate) fn total_of(sums: &BTreeMap<&str, u128>, name: &str) -> u128
    ensures { result ≡ total_in sums.now name.now }
{
    sums.get(name).copied().unwrap_or(0)
}
