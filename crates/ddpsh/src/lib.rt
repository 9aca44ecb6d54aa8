//! The top call of the program: a script is served line by line, from its bytes to the bytes of the answers.
#![tactic(auto)]

mod acks;
mod calls;
mod commands;
mod ending;
pub mod laws;
mod limits;
mod listing;
mod opening;
mod serving;
mod session;
mod top;

pub use acks::{Ack, Acks};
pub use answer_text::{Answered, SessionFault};
pub use commands::{Command, command_of};
pub use limits::MOST_CALLS_OF_A_LINE;
pub use script_items::{MOST_AHEAD, MOST_SCRIPT};
pub use session::Session;
pub use top::{Outcome, run};
pub use volume_inside::{CLUSTER_BYTES, LEAST_CLUSTERS, MOST_CLUSTERS};
