//! The books that tests of a print queue run over alike: in lists, in tables in memory, in tables in memory that are
//! closed and adopted before every step, in tables in a file that is opened again before every step, and in tables on a disk
//! that stops. Tables of the first schema are there as statements (`older`).

pub(crate) mod books;
mod disk;
pub(crate) mod kinds;
pub(crate) mod older;
pub(crate) mod stops;
mod store;
