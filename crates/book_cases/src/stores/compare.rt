//! What comes, beside what is wanted.

use std::fmt::Debug;
use std::test::Fail;

/// Both are the same. A difference is told by the name.
pub(super) fn same<T: PartialEq + Debug>(came: &T, wanted: &T, name: &str) -> Result<(), Fail> {
    if came == wanted {
        return Ok(());
    }
    Err(Fail::new(format_args!("{name}: {came:?}, wanted: {wanted:?}")))
}
