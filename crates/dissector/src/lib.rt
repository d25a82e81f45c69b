// Frames as text for people, a line each: where it stands, its channel, and what its payload holds.
#![tactic(auto)]

mod arguments;
mod command;
pub mod ending;
pub mod frame_line;
mod header;
mod method_name;
mod refusal;
mod reply;
