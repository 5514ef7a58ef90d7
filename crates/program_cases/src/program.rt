//! What the program does beside its queue: the commands on stores in files, by their words, with what they print and the files that
//! they leave; the server over sockets of the loopback interface, with clients that print, go away, say nothing, sit idle and
//! don't read; and replays over streams.
//!
//! There is one thread: a client connects and writes before it is served, and reads what it got once that has ended, or as the server looks at its clock. What clients and
//! the server do in turn is data: the steps of a test.

mod account_files;
mod clients;
mod clocks;
mod expiry;
mod faults;
mod folder;
mod listening;
mod operators;
mod patience;
mod replays;
mod server;
mod serving;
mod sockets;
mod stores;
mod words;
