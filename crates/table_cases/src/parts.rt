// The parts of a case, as they stand in its line.
use std::alloc::{AllocError, Global};
use types::Span;

// The most fields of a case. A frame of a content header with all properties has 17.
const MOST_FIELDS: usize = 20;

// The octets of fields and strings, where the fields stand among them, and a tape, of which so many words are the records. All are made
// once, and a line that has more of them than there is room for is no case. A case that reads has no records, and is lent the tape: it is
// as long as it was made, since to make it longer for each case would fill it each time.
#[derive(Drop)]
pub struct Parts {
    pub pool: Vec<u8>,
    pub fields: Vec<Span>,
    pub tape: Vec<u64>,
    pub words: usize,
}

impl Parts {
    pub fn new(alloc: Global, octets: usize, words: usize) -> Result<Parts, AllocError> {
        Ok(Parts {
            pool: Vec::with_capacity(alloc, octets)?,
            fields: Vec::with_capacity(alloc, MOST_FIELDS)?,
            tape: vec![in alloc; 0u64; words]?,
            words: 0,
        })
    }

    pub fn clear(&mut self) {
        self.pool.clear();
        self.fields.clear();
        self.words = 0;
    }

    pub fn records(&self) -> &[u64] {
        self.tape.get(..self.words).unwrap_or(&[])
    }
}
