// The readers and writers for C and Rust. A slice is passed as a pointer and a length, and what is lent as `&mut` overlaps
// nothing else that is lent. The answer is the code returned and four words: specs/Reply.antt.
// An output and its place, a tape and the number of its used records, a pool and a tape are apart, as C has them.
#![tactic(auto)]

mod field_tables;
mod frames;
mod methods;
mod reading;
mod reply;
mod writing;
