// Cases of commands, content headers and whole frames. A payload is 26 words (crates/payload_words), and loops over its layout turn the
// fields of a case into words, and words into an answer.
#![tactic(auto)]

pub mod fields;
pub mod reading;
pub mod shown;
pub mod writing;
