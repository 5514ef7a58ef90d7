//! What the tests share: a queue in a book of either kind, the requests that are sent to it, and the answers that are wanted.
//!
//! A `Queue` is one in a book of any kind, and the connections that come to it (`queue`); `books` has the kinds that it is run over, and `faulty` a
//! book that can't do what it is asked. What owns a book takes its kind as a parameter: a function that names one costs the prover more.
//! A connection is data (`connection`): the bytes that a client sends and what it is to get. Requests and IPP messages stand in `requests` and
//! `messages`, a first job's in `jobs`, readers and writers that are slow or fail in `streams`. Rows of connections are taken in `rows`, and `refused`
//! has the answers that refuse. A comparison that fails is told with the name of its book (`compare`).
//!
//! What is promised is that a comparison succeeds just where what it compares is the same. All else is seen when the tests run.

pub(crate) mod books;
pub(crate) mod compare;
pub(crate) mod connection;
pub(crate) mod faulty;
pub(crate) mod jobs;
pub(crate) mod messages;
pub(crate) mod queue;
pub(crate) mod refused;
pub(crate) mod requests;
pub(crate) mod rows;
pub(crate) mod streams;
