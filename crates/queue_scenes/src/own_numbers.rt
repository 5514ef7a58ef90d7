//! The jobs of one owner that have given numbers.
ghost use Rattle.std.specs.Prelude.{◌≡◌, ◌≢◌, ◌<◌, ◌↔◌, ◌==◌, ◌&&◌, ℕ, All, bytes_eq, count_by, filter, length, IfOk, OnOk, IsTrue, IfErr};
ghost use Rattle.std.specs.List.{list_any};
ghost use Rattle.std.specs.List.Sorted.{IsStrictlySortedBy};
ghost use Rattle.std.specs.Ordering.{nat_cmp};
ghost use Rattle.sqlite.specs.Held.{state};
ghost use Rattle.sqlite.specs.State.{HasCleanDisk};
ghost use Rattle.queue_core.specs.Limits.{IsSoundJob};
ghost use Rattle.queue_core.specs.World.{is_one_of, rows};
ghost use Rattle.queue_types.specs.declared.job.Job.{Job as JobValue};
ghost use Rattle.queue_tables.specs.Telling.{ReadsQueue};

use crate::counts::own_count;
use crate::jobs::with_number;
use crate::own_jobs::all_jobs;
use queue_core::number_set;
use queue_tables::fault::Fault;
use queue_types::job::Job;
use queue_types::limits::MOST_LIVE_JOBS;
use sqlite::{Alter, Connection};
use std::alloc::{AllocError, Global};
use std::collections::BTreeSet;

/// The numbers of a set, which rise.
fn keys_of(alloc: Global, set: &BTreeSet<u32>) -> Result<Vec<u32>, AllocError>
    ensures kept { IfOk result (λ v. v.items ≡ set.now.keys) }
    ensures rising { IfOk result (λ v. IsStrictlySortedBy nat_cmp v.items) }
{
    set.iter().copied().collect(alloc)
}

/// The numbers in their order, none twice.
fn in_order(alloc: Global, numbers: &[u32]) -> Result<Vec<u32>, AllocError>
    ensures rising { IfOk result (λ v. IsStrictlySortedBy nat_cmp v.items) }
    ensures same { IfOk result (λ v. (q : ℕ) → list_any (λ n. n == q) v.items ≡ list_any (λ n. n == q) numbers.now) }
{
    let set = number_set(alloc, numbers)?;
    keys_of(alloc, &set)
}

/// Keeps those of the jobs that are the owner's.
fn keep_owned(jobs: &mut Vec<Job>, owner: &str)
    ensures { jobs.new.items ≡ filter (λ (j : JobValue). bytes_eq j.owner owner.now) jobs.old.items }
{
    jobs.retain(|job| job.owner.as_str() == owner);
}

/// The owner's jobs of the numbers, which rise.
fn owned_of<S: Alter>(
    alloc: Global,
    conn: &mut Connection<S>,
    owner: &str,
    numbers: &[u32],
) -> Result<Vec<Job>, Fault>
    requires { IsStrictlySortedBy nat_cmp numbers.now }
    ensures reads { ReadsQueue (state S.Store conn.old) (state S.Store conn.new) result (λ w v. v.items ≡ filter (λ (j : JobValue). bytes_eq j.owner owner.now && list_any (λ n. n == j.number) numbers.now) (rows w)) }
    ensures live { HasCleanDisk (state S.Store conn.new) → IsTrue (state S.Store conn.old).is_open → OnOk result (IsTrue (state S.Store conn.new).is_open) }
    ensures sound { IfOk result (λ v. All IsSoundJob v.items) }
{
    let mut own = Vec::new(alloc);
    for number in numbers {
        let mut found = with_number(alloc, conn, *number)?;
        keep_owned(&mut found, owner);
        own.append(&mut found)?;
    }
    Ok(own)
}

/// The number is one of these, which rise.
fn is_among(numbers: &[u32], number: u32) -> bool
    ensures { IsStrictlySortedBy nat_cmp numbers.now → result ≡ list_any (λ n. n == number) numbers.now }
{
    numbers.binary_search(&number).is_ok()
}

/// Keeps those of the jobs that have one of the numbers, which rise.
fn keep_numbered(jobs: &mut Vec<Job>, numbers: &[u32])
    ensures { IsStrictlySortedBy nat_cmp numbers.now → jobs.new.items ≡ filter (λ (j : JobValue). list_any (λ n. n == j.number) numbers.now) jobs.old.items }
{
    jobs.retain(|job| is_among(numbers, job.number));
}

/// The owner's jobs of the numbers, which rise, out of all that the owner has.
fn picked_of<S: Alter>(
    alloc: Global,
    conn: &mut Connection<S>,
    owner: &str,
    numbers: &[u32],
) -> Result<Vec<Job>, Fault>
    requires { IsStrictlySortedBy nat_cmp numbers.now }
    ensures reads { ReadsQueue (state S.Store conn.old) (state S.Store conn.new) result (λ w v. v.items ≡ filter (λ (j : JobValue). bytes_eq j.owner owner.now && list_any (λ n. n == j.number) numbers.now) (rows w)) }
    ensures live { HasCleanDisk (state S.Store conn.new) → OnOk result (IsTrue (state S.Store conn.new).is_open) }
    ensures sound { IfOk result (λ v. All IsSoundJob v.items) }
{
    let mut own = all_jobs(alloc, conn, owner)?;
    keep_numbered(&mut own, numbers);
    Ok(own)
}

/// There are more than 100 numbers, and more than the owner has jobs.
fn are_many<S: Alter>(conn: &mut Connection<S>, owner: &str, numbers: &[u32]) -> Result<bool, Fault>
    ensures reads { ReadsQueue (state S.Store conn.old) (state S.Store conn.new) result (λ w b. IsTrue b ↔ (100 < length numbers.now) × (count_by (λ (j : JobValue). bytes_eq j.owner owner.now) (rows w) < length numbers.now)) }
    ensures live { HasCleanDisk (state S.Store conn.new) → IsTrue (state S.Store conn.old).is_open → OnOk result (IsTrue (state S.Store conn.new).is_open) }
    ensures never { IfErr result (λ e. e ≢ Fault.Damaged) }
{
    // a call that cancels names no more jobs than may be live: each job that it names has to be live
    if numbers.len() <= MOST_LIVE_JOBS {
        return Ok(false);
    }
    let count = own_count(conn, owner)?;
    Ok(numbers.len() > count)
}

/// The owner's jobs of the numbers, by number. They are looked up one by one; but where many are asked, and more than the
/// owner has jobs, all of those are read in their place, so that they bound the work.
pub(crate) fn numbered_jobs<S: Alter>(
    alloc: Global,
    conn: &mut Connection<S>,
    owner: &str,
    numbers: &[u32],
) -> Result<Vec<Job>, Fault>
    ensures reads { ReadsQueue (state S.Store conn.old) (state S.Store conn.new) result (λ w v. v.items ≡ filter (λ (j : JobValue). bytes_eq j.owner owner.now && is_one_of numbers.now j) (rows w)) }
    ensures live { HasCleanDisk (state S.Store conn.new) → IsTrue (state S.Store conn.old).is_open → OnOk result (IsTrue (state S.Store conn.new).is_open) }
    ensures sound { IfOk result (λ v. All IsSoundJob v.items) }
{
    let wanted = in_order(alloc, numbers)?;
    let asked = wanted.as_slice();
    let many = are_many(conn, owner, asked)?;
    if many {
        return picked_of(alloc, conn, owner, asked);
    }
    owned_of(alloc, conn, owner, asked)
}
