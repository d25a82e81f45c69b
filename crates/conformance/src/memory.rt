// Memory that a case is taken into, and that is lent to the functions that are tried: made once.
use std::alloc::{AllocError, Global};
use table_cases::parts::Parts;

// For the octets of a case, and for what a writer writes.
const OCTETS: usize = 400_000;

// A used record, 65,536 free ones, and three words that are no record.
const TAPE_WORDS: usize = 393_225;

// 25,000 entries, and two words that are none.
const REGISTER_WORDS: usize = 75_002;

#[derive(Drop)]
pub(crate) struct Memory {
    pub(crate) parts: Parts,
    pub(crate) lent: Vec<u8>,
    pub(crate) register: Vec<u64>,
}

impl Memory {
    pub(crate) fn new(alloc: Global) -> Result<Memory, AllocError> {
        Ok(Memory {
            parts: Parts::new(alloc, OCTETS, TAPE_WORDS)?,
            lent: vec![in alloc; 0u8; OCTETS]?,
            register: vec![in alloc; 0u64; REGISTER_WORDS]?,
        })
    }
}
