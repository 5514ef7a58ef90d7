//! Print queues in books of every kind, and in the stores that keep them. It has tests alone.
#![tactic(auto)]

#[cfg(test)]
mod desk;
#[cfg(test)]
mod rows;
#[cfg(test)]
mod shelves;
#[cfg(test)]
mod stores;
