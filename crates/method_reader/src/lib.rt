// Readers of commands and content headers. All octets are judged before the tape is filled, so that a refusal leaves it as it was. A tape
// and the number of its records that are used are two parameters, as for the readers of frames and tables: C lends them apart, and after a
// refusal there is nothing to put back.
#![tactic(auto)]

pub mod commands;
mod fields;
mod head;
pub mod headers;
mod login;

// A command that was read in words: class and method, and the number of tape records filled. Its arguments are in the words lent: a
// WithCount of a Call would move them out of where C lends them.
#[derive(Clone, Copy, Debug, PartialEq, Eq)]
pub struct CallRead {
    pub class: u16,
    pub method: u16,
    pub records: usize,
}

// A content header that was read in words: class, body size, a bit for each property that is present, the first one highest of thirteen,
// and the number of tape records filled. Its properties are in the words lent, as the arguments of a command.
#[derive(Clone, Copy, Debug, PartialEq, Eq)]
pub struct HeaderRead {
    pub class: u16,
    pub body_size: u64,
    pub present: u16,
    pub records: usize,
}
