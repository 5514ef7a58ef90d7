//! Whole HTTP connections to a print queue, by the bytes that a client sends and those that it is to get.
//!
//! They run over the queue in lists and over the one in tables alike. A read gives at most 1, 2, 7 or 4,096 bytes; of a stream of 8,192 bytes
//! and more, or of a head without end, 100 or 4,096. Nothing is read behind the last byte of a stream before its answers are written, and then
//! its end once at most; that an answer comes before the requests behind its own are read isn't looked at. Other than that:
//!
//! - A method without end comes over lists at 1, 2 and 7 bytes a read too.
//! - Chunked bodies of 67,108,864 bytes, and about as many, come over lists alone, at 4,096 bytes a read.
//! - Large documents come over both at 4,096 bytes a read, and each of five hundred connections that are drawn at one of the speeds, over both
//!   the same. Of these, and of a day of connections, of which a read gives all, it isn't looked at when they are answered.
//! - A Print-Job behind its fronts, cut at each length, comes at one byte a read.
//! - Where reads or writes fail, and where a book does, a read gives all that there is. Reads fail behind each byte of the requests over lists, and
//!   behind each 25th over tables. Writes fail after each byte of an answer over lists, with at most 50, 7 and 1 bytes a write, and after each 25th
//!   over tables, with at most 50; in a large document they fail at each write and at five other places, over both. Books fail over both.

mod answers;
mod bodies;
mod broken;
mod calls;
mod cut;
mod days;
mod documents;
mod drawn;
mod ends;
mod faults;
mod interrupted;
mod limits;
mod refusals;
