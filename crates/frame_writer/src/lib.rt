// Writers of frames: of a type, channel and payload octets, and of what a payload holds. Each judges first, so that a refusal has
// written nothing. The output and the place in it are two parameters, as in crates/writers, which has the reason.
#![tactic(auto)]

pub mod encode;
pub mod write;
