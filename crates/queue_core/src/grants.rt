//! What the machine decides on an account file: its rows are taken in order, all of them or none.
ghost use Rattle.std.specs.Prelude.{◌≡◌, ◌≤◌, ◌<◌, ◌+◌, ◌+ℤ◌, ◌^◌, ◌==◌, ◌++◌, ◌∷◌, [], ℕ, pos, All, List, None, Some, IfOk, IsSome, bytes_eq, if◌then◌else◌, length, nat_lt, option_map, unwrap_or};
ghost use Rattle.queue_types.specs.Event.{decision_of};
ghost use Rattle.queue_types.specs.declared.event.GrantRefusal.TheVariants.{Conflict, TooMany};
ghost use Rattle.queue_core.specs.Grants.{all_taken, is_too_many, new_row, refused_row, repeated, row_of, row_under, take_rows as rows_taken};
ghost use Rattle.queue_core.specs.Limits.{IsFair, IsKnown};
ghost use Rattle.queue_core.specs.Machine.{grant_row};
ghost use Rattle.queue_core.specs.Tally.{total_of, row_in, rows_after, free_rows_after, taken_at, ArePages, AreTotals, IsEndWithin, IsTallied, IsTalliedAfter};

use crate::decision::{answer_only, no_change};
use queue_types::event::{
    Decision, FreeList, FreeRow, GrantList, GrantRefusal, GrantRow, KnownGrant, Reply, Scene,
};
use queue_types::limits::MOST_GRANTED_PAGES;
use std::alloc::{AllocError, Global};
use std::collections::HashMap;

/// A batch and an account.
#[derive(Clone, Copy, PartialEq, Eq, Hash)]
struct Key<'a> {
    batch: &'a str,
    account: &'a str,
}

/// Puts a row's pages under its batch and account, and gives those that stood there.
fn add_key<'a>(
    pages: &mut HashMap<Key<'a>, u32>,
    grant: &'a GrantRow,
) -> Result<Option<u32>, AllocError>
    ensures before { IfOk result (λ o. (rows : List GrantRow) → ArePages pages.old rows → o ≡ option_map (λ g. g.pages) (row_under grant.now rows)) }
    ensures new { IfOk result (λ o. (rows : List GrantRow) → ArePages pages.old rows → o ≡ None → ArePages pages.new (rows ++ grant.now ∷ [])) }
    ensures again { IfOk result (λ o. (rows : List GrantRow) → ArePages pages.old rows → o ≡ Some grant.now.pages → ArePages pages.new rows) }
{
    let key = Key {
        batch: grant.batch.as_str(),
        account: grant.account.as_str(),
    };
    let before = pages.insert(key, grant.pages)?;
    Ok(before)
}

/// The sum of two numbers of pages; none where it would be more than `most`.
fn sum_within(total: u32, pages: u32, most: u32) -> Option<u32>
    ensures { result ≡ (if nat_lt most (total + pages) then None else Some (total + pages)) }
{
    total.checked_add(pages).filter(|sum| *sum <= most)
}

/// Adds a row's pages to the total of its account, and gives the total then; none where that would be more than `most`.
fn add_pages<'a>(
    totals: &mut HashMap<&'a str, u32>,
    grant: &'a GrantRow,
    most: u32,
) -> Result<Option<u32>, AllocError>
    ensures total { IfOk result (λ o. o ≡ (if nat_lt most (total_of totals.old grant.now.account + grant.now.pages) then None else Some (total_of totals.old grant.now.account + grant.now.pages))) }
    ensures added { IfOk result (λ o. IsSome o → (a : List ℕ) → total_of totals.new a ≡ total_of totals.old a + (if bytes_eq grant.now.account a then grant.now.pages else 0)) }
{
    let total = totals.entry(grant.account.as_str())?.or_insert(0);
    let sum = sum_within(*total, grant.pages, most);
    if let Some(sum) = sum {
        *total = sum;
    }
    Ok(sum)
}

/// The new rows so far, with the free pages of the account of each after it, their pages by batch and account,
/// and their totals by account.
#[derive(Drop)]
struct Tally<'a> {
    rows: Vec<GrantRow>,
    free: Vec<FreeRow>,
    pages: HashMap<Key<'a>, u32>,
    totals: HashMap<&'a str, u32>,
}

/// What becomes of a row after those new ones.
#[derive(Clone, Copy, Debug)]
enum RowState {
    /// It equals one that was accepted before.
    Repeated,
    Refused(GrantRefusal),
    New,
}

/// What becomes of a row of these pages under whose batch and account some were accepted before.
fn state_beside(before: u32, pages: u32) -> RowState
    ensures { row_in result ≡ (if before == pages then repeated else refused_row Conflict) }
{
    if before == pages {
        RowState::Repeated
    } else {
        RowState::Refused(GrantRefusal::Conflict)
    }
}

/// The account of a row, with the free pages that it has once the file has given it `total`.
fn account_after(grant: &GrantRow, known: &KnownGrant, total: u32) -> Result<FreeRow, AllocError>
    requires known { IsKnown known.now }
    requires total { total ≤ 1000000000 }
    ensures { IfOk result (λ a. a ≡ record { account = grant.now.account; free = unwrap_or known.now.free (pos 0) +ℤ pos total }) }
{
    let account = grant.account.try_clone()?;
    Ok(FreeRow {
        account,
        free: known.free.unwrap_or(0) + i64::from(total),
    })
}

/// Adds a row under whose batch and account none of the new rows stands, where its account has room for it. Its pages
/// stand under them already.
fn add_row<'a>(
    tally: &mut Tally<'a>,
    grant: &'a GrantRow,
    known: &KnownGrant,
) -> Result<RowState, AllocError>
    requires pages { ArePages tally.old.pages (tally.old.rows.items ++ grant.now ∷ []) }
    requires totals { AreTotals tally.old.totals tally.old.rows.items }
    requires known { IsKnown known.now }
    ensures state { IfOk result (λ s. row_in s ≡ (if is_too_many grant.now known.now tally.old.rows.items then refused_row TooMany else new_row)) }
    ensures rows { IfOk result (λ s. tally.new.rows.items ≡ rows_after (row_in s) tally.old.rows.items grant.now) }
    ensures free { IfOk result (λ s. tally.new.free.items ≡ free_rows_after (row_in s) tally.old.free.items tally.old.rows.items grant.now known.now) }
    ensures tallied { IfOk result (λ s. IsTalliedAfter (row_in s) tally.new) }
{
    let Some(total) = add_pages(&mut tally.totals, grant, MOST_GRANTED_PAGES - known.granted)?
    else {
        return Ok(RowState::Refused(GrantRefusal::TooMany));
    };
    let account = account_after(grant, known, total)?;
    tally.free.push(account)?;
    let row = grant.try_clone()?;
    tally.rows.push(row)?;
    Ok(RowState::New)
}

/// What becomes of a row, which is added where it is new.
fn take_row<'a>(
    tally: &mut Tally<'a>,
    grant: &'a GrantRow,
    known: &KnownGrant,
) -> Result<RowState, AllocError>
    requires tallied { IsTallied tally.old }
    requires known { IsKnown known.now }
    ensures state { IfOk result (λ s. row_in s ≡ row_of grant.now known.now tally.old.rows.items) }
    ensures rows { IfOk result (λ s. tally.new.rows.items ≡ rows_after (row_in s) tally.old.rows.items grant.now) }
    ensures free { IfOk result (λ s. tally.new.free.items ≡ free_rows_after (row_in s) tally.old.free.items tally.old.rows.items grant.now known.now) }
    ensures tallied { IfOk result (λ s. IsTalliedAfter (row_in s) tally.new) }
{
    if let Some(pages) = known.pages {
        return Ok(state_beside(pages, grant.pages));
    }
    match add_key(&mut tally.pages, grant)? {
        Some(pages) => Ok(state_beside(pages, grant.pages)),
        None => add_row(tally, grant, known),
    }
}

/// Where the rows of an account file ended to be taken.
#[derive(Clone, Copy, Debug)]
enum End {
    /// Behind the last one. So many equal one accepted before.
    Whole { repeats: u32 },
    /// At a row, counted from 1, that can't be taken.
    At { refusal: GrantRefusal, row: u32 },
}

/// Takes rows in order, each beside what is known of it, up to one that can't be taken. A row that equals one accepted
/// before, in this file or earlier, is a repeat.
fn take_rows<'a>(
    tally: &mut Tally<'a>,
    rows: &'a [GrantRow],
    known: &[KnownGrant],
) -> Result<End, AllocError>
    requires few { length rows.now < 2 ^ 31 }
    requires known { All IsKnown known.now }
    requires tallied { IsTallied tally.old }
    ensures taken { IfOk result (λ e. taken_at e tally.new.rows.items tally.new.free.items ≡ rows_taken rows.now known.now 1 tally.old.rows.items tally.old.free.items 0) }
    ensures within { IfOk result (λ e. IsEndWithin e (length tally.new.rows.items) (length tally.old.rows.items) (length rows.now)) }
{
    let mut repeats = 0;
    // the scene knows something of each row
    let end = rows.len().min(known.len());
    for i in 0..end {
        match take_row(tally, &rows[i], &known[i])? {
            RowState::New => {}
            RowState::Repeated => repeats += 1,
            RowState::Refused(refusal) => {
                return Ok(End::At {
                    refusal,
                    row: i as u32 + 1,
                });
            }
        }
    }
    Ok(End::Whole { repeats })
}

/// The new rows of an account file, with the free pages of the account of each after it, and where their taking ended.
#[derive(Drop)]
struct FileRows {
    rows: Vec<GrantRow>,
    free: Vec<FreeRow>,
    end: End,
}

/// Takes the rows of an account file, each beside what is known of it, up to one that can't be taken. The one error is
/// want of memory.
fn take_file(alloc: Global, rows: &[GrantRow], known: &[KnownGrant]) -> Result<FileRows, AllocError>
    requires few { length rows.now < 2 ^ 31 }
    requires known { All IsKnown known.now }
    ensures taken { IfOk result (λ f. taken_at f.end f.rows.items f.free.items ≡ rows_taken rows.now known.now 1 [] [] 0) }
    ensures within { IfOk result (λ f. IsEndWithin f.end (length f.rows.items) 0 (length rows.now)) }
{
    let mut tally = Tally {
        rows: Vec::new(alloc),
        free: Vec::new(alloc),
        pages: HashMap::new(alloc),
        totals: HashMap::new(alloc),
    };
    let end = take_rows(&mut tally, rows, known)?;
    Ok(FileRows {
        rows: tally.rows,
        free: tally.free,
        end,
    })
}

/// The decision that these rows are new, beside so many repeats.
fn add_rows<'a>(
    alloc: Global,
    rows: Vec<GrantRow>,
    free: Vec<FreeRow>,
    repeats: u32,
) -> Decision<'a>
    requires few { length rows.items < 2 ^ 31 }
    ensures { decision_of result ≡ grant_row (all_taken rows.items free.items repeats) }
{
    let added = rows.len() as u32;
    let mut change = no_change(alloc);
    change.free = FreeList::from_items(free);
    change.grants = GrantList::from_items(rows);
    Decision {
        reply: Reply::Added { added, repeats },
        change,
    }
}

/// The rows of an account file are taken, all of them or none. The one error is want of memory.
pub(crate) fn grant<'a>(
    alloc: Global,
    scene: &Scene,
    rows: &[GrantRow],
) -> Result<Decision<'a>, AllocError>
    requires fair { IsFair scene.now }
    requires few { length rows.now ≤ 16777216 }
    ensures { IfOk result (λ d. decision_of d ≡ grant_row (rows_taken rows.now scene.now.known 1 [] [] 0)) }
{
    let FileRows { rows, free, end } = take_file(alloc, rows, scene.known.as_slice())?;
    match end {
        End::Whole { repeats } => Ok(add_rows(alloc, rows, free, repeats)),
        End::At { refusal, row } => Ok(answer_only(alloc, Reply::NotAdded { refusal, row })),
    }
}
