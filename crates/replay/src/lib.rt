//! The text of a replay: requests that stand on lines, and the lines that answer them.
#![tactic(auto)]

mod context;
mod fault;
mod hexadecimal;
mod law;
mod lines;
mod replaying;
mod request_line;
mod session;
mod settings;

pub use fault::Fault;
pub use hexadecimal::{HexFault, MOST_MESSAGE_BYTES, put_hex, read_hex};
pub use law::replays_are_runs;
pub use replaying::replay_over;
pub use settings::replay_settings;
