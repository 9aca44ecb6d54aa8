//! The texts of answers: what is printed for a call and its reply, and for a line that is refused.
#![tactic(auto)]

mod answers;
mod lists;
mod put;
mod stops;

pub use answers::{
    Answered, accepted, accepted_digest, accepted_number, end, read_room, refused, refused_call,
    refused_line, refused_number, refused_numbers, silent,
};
pub use lists::{accepted_lines, add_line};
pub use put::put_all;
pub use stops::SessionFault;
