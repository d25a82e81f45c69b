// Cases of the octet layer, and what all libraries of cases share. A case is a line of words, one space between two:
//
//     OP [+N] [@N] FIELD.. [/ RECORD.. [*N]]
//
// OP is the name of a function (operation.rt has them all), +N the position at which it reads or writes, @N the octets that a writer or
// the free records that a reader is lent. A FIELD is octets, a RECORD a value of a field table (crates/table_cases), and *N gives the last
// record so many times more. differential/README.md teaches it with examples. The answer is a line too: `=` and what was read or written,
// `!` and a refusal by its number and values, `?` where the line is no case, `# changed` where lent memory did not stay as it had to.
#![tactic(auto)]

pub mod answer;
pub mod lent;
pub mod line;
pub mod operation;
pub mod reading;
pub mod reply;
pub mod writing;
