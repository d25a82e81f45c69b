// Writers of commands and content headers. Each judges every argument in wire order, then the lengths, then the space, and only then
// writes, so that a refusal leaves the output as it was. Beside each is a function that only judges, without the space.
//
// A struct of the pool and the tape was tried in those that take both: to write a command took nine instructions more, the
// frame of a header without properties 15 more, and that of one with all 16 fewer.
#![tactic(auto)]

pub mod commands;
mod emit;
pub mod headers;
mod sizes;
mod spans;
