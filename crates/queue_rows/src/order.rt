//! Rows in the order of their key.
ghost use Rattle.std.specs.Prelude.{◌≡◌, ◌↔◌, Bool, IsTrue};
ghost use Rattle.queue_rows.specs.Order.{AreInOrder};

/// A row of a table that is read in the order of its key.
pub trait Keyed {
    /// The key of the first comes before that of the second.
    ghost before: { Self → Self → Bool };

    /// Its key comes before the other's.
    fn is_before(&self, other: &Self) -> bool
        ensures { result ≡ before self.now other.now };
}

/// The rows stand in the order of their keys, none twice.
pub fn are_in_order<R: Keyed>(rows: &[R]) -> bool
    ensures { IsTrue result ↔ AreInOrder R.before rows.now }
{
    rows.is_sorted_by(|a, b| a.is_before(b))
}
