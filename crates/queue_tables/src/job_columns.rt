//! The columns of a job, for all texts that name each of them.

/// A text of SQL: the columns of a job, in the order in which `read::read_job` reads them, between what stands before and behind them.
#[macro_export]
macro_rules! with_job_columns {
    ($before:literal, $behind:literal) => {
        concat!(
            $before,
            "number, owner, name, copies, impressions, hold, incoming, phase, why, stopping, count, created, begun, ended",
            $behind
        )
    };
}

/// The same for a store that may be of an older version, which has 0 in the column `why` of a job that its user stops: then
/// `why + (why = 0 AND stopping = 1)` is 1, which is by its user. Of every other job it is `why`.
#[macro_export]
macro_rules! with_kept_job_columns {
    ($before:literal, $behind:literal) => {
        concat!(
            $before,
            "number, owner, name, copies, impressions, hold, incoming, phase, why + (why = 0 AND stopping = 1), stopping, count, created, begun, ended",
            $behind
        )
    };
}
