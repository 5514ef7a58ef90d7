//! Whole HTTP connections to a print queue, by their bytes (`connections`), and what the program does beside its queue (`program`). What they
//! share stands in `desk`. It has tests alone.
#![tactic(auto)]

#[cfg(test)]
mod connections;
#[cfg(test)]
mod desk;
#[cfg(test)]
mod program;
