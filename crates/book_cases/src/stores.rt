//! A queue in the tables of a store: what comes back from it, and what is refused of it.

mod adopted;
mod columns;
mod compare;
mod judge;
mod older;
mod operators;
mod pieces;
mod queue;
mod rows;
mod shown;
mod tables;
