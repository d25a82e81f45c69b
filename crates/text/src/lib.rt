// Values as text for people.
#![tactic(auto)]

pub mod float;
pub mod moment;
pub mod number;
pub mod string;
pub mod table;
