//! The versions of the tables.

/// The version of tables by their schema.
#[derive(Clone, Copy)]
pub(crate) enum SchemaVersion {
    /// It has neither `policy` nor `operators`.
    First,
    /// It has no `operators`.
    Second,
    /// The newest.
    Third,
}
