// Cases of frames whose payload is not read, of frames that are read and written again, and of the walk.
#![tactic(auto)]

pub mod coding;
pub mod walking;
