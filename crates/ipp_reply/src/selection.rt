//! Which rows of a table of attributes the values of a `requested-attributes` select.
ghost use Rattle.std.specs.Prelude.{◌≡◌, ℕ, Bool, List, IfOk, filter};
ghost use Rattle.std.specs.List.{list_any};
ghost use Rattle.ipp_wire.specs.Viewed.{values_of};
ghost use Rattle.ipp_reply.specs.Wanted.{words_of};

use ipp_wire::ValueView;
use std::alloc::{AllocError, Global};

/// A row of a table of attributes.
pub(crate) trait Selectable: Copy {
    /// The word selects the row.
    ghost selects: { Self → List ℕ → Bool };

    /// The word selects the row.
    fn is_selected(self, word: &[u8]) -> bool
        ensures { result ≡ selects self word.now };
}

/// A word in these values selects the row, said value by value.
fn is_requested<R: Selectable>(row: R, values: &[ValueView<'_>]) -> bool
    ensures { result ≡ list_any (λ v. R.selects row v.bytes.now) values.now }
{
    values.iter().any(|v| row.is_selected(v.bytes))
}

/// The same, said of the values' words, as the definition has it: a step for the prover.
#[tactic(auto, using(crate::proofs::Lists::list_any_map))]
fn is_named<R: Selectable>(row: R, values: &[ValueView<'_>]) -> bool
    ensures { result ≡ list_any (R.selects row) (words_of (values_of values.now)) }
{
    is_requested(row, values)
}

/// The rows that a word in these values selects, in the table's order. The one error is want of memory.
pub(crate) fn selected_rows<R: Selectable>(
    alloc: Global,
    rows: &[R],
    values: &[ValueView<'_>],
) -> Result<Vec<R>, AllocError>
    ensures { IfOk result (λ v. v.items ≡ filter (λ r. list_any (R.selects r) (words_of (values_of values.now))) rows.now) }
{
    rows.iter()
        .copied()
        .filter(|r| is_named(*r, values))
        .collect(alloc)
}
