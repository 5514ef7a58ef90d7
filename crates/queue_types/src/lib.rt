//! What a print queue is made of: jobs with their states and documents, a printer's settings, the events that may happen and what they
//! are answered, with their limits. What an event does to a queue is not said here.
#![tactic(auto)]

pub mod document;
pub mod event;
pub mod job;
pub mod limits;
pub mod list;
pub mod names;
pub mod operators;
pub mod settings;
pub mod sheet;
pub mod states;
pub mod status;
pub mod text;
pub mod uri;
