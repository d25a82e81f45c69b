// Cases of field tables and lone values: readers and writers, and the tape that readers are lent. A whole line is taken apart here, since
// its records are those of a table.
#![tactic(auto)]

pub mod case;
pub mod lending;
pub mod parts;
pub mod record;
pub mod table;
mod tape;
pub mod value;
