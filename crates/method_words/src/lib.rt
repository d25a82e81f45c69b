// Commands and content headers as words of 64 bits, in wire order, both ways: what loops over a layout read and write, and what other
// languages lend. A string is two words, its start and length in a pool; a table is its number of tape records.
#![tactic(auto)]

pub mod calls;
pub mod commands;
pub mod cut;
pub mod headers;
pub mod properties;

// A command by its pair, and its arguments as words.
#[derive(Clone, Copy, Debug, PartialEq, Eq)]
pub struct Call {
    pub class: u16,
    pub method: u16,
    pub words: [u64; 8],
}

// A content header, a bit of `present` for each of the thirteen properties, the first one highest, and those as words.
#[derive(Clone, Copy, Debug, PartialEq, Eq)]
pub struct HeaderWords {
    pub class: u16,
    pub body_size: u64,
    pub present: u16,
    pub words: [u64; 22],
}
