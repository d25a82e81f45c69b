// A case: its line taken apart into an operation, fields and records.
use crate::parts::Parts;
use crate::record::Records;
use cases::line;
use cases::line::Front;
use cases::operation::{OctetWriter, Operation};
use types::Span;

// The operation, the position and the limit, if there is one; the fields, and the pool in which they and the strings of the records stand;
// the words of the records.
#[derive(Clone, Copy)]
pub struct Case<'a> {
    pub operation: Operation,
    pub at: usize,
    pub limit: Option<usize>,
    pub fields: &'a [Span],
    pub pool: &'a [u8],
    pub records: &'a [u64],
}

// The one octet that a field is.
pub fn octet_of(field: &[u8]) -> Option<u8> {
    let [octet] = field else {
        return None;
    };
    Some(*octet)
}

// The number that a field of two octets is.
pub fn u16_of(field: &[u8]) -> Option<u16> {
    let [high, low] = field else {
        return None;
    };
    Some(u16::from_be_bytes([*high, *low]))
}

impl<'a> Case<'a> {
    // The octets of field k; none where there is no such field.
    pub fn field(self, k: usize) -> &'a [u8] {
        match self.fields.get(k) {
            None => &[],
            Some(span) => span.octets_in(self.pool).unwrap_or(&[]),
        }
    }

    // The records that were read onto a tape: by their words where the case says how many are lent.
    pub fn records_on(self, tape: &'a [u64]) -> Records<'a> {
        Records {
            s: self.field(0),
            tape,
            by_words: self.limit.is_some(),
        }
    }

    // Whether the operation takes so many fields, records and this limit. A table is written from records alone, or behind octets
    // for plain words to count from; the writers of payloads judge their fields themselves.
    fn is_whole(self) -> bool {
        let fields = self.fields.len();
        let is_plain = self.records.is_empty();
        match self.operation {
            Operation::Read(_) | Operation::Decode | Operation::ReadReply(_) => {
                fields == 1 && is_plain && self.limit.is_none()
            }
            Operation::ReadTape(_) => fields == 1 && is_plain,
            Operation::Walk => fields == 2 && is_plain,
            Operation::Write(OctetWriter::Field(_)) => fields == 1 && is_plain,
            Operation::Write(OctetWriter::Encode) => fields == 3 && is_plain,
            Operation::Write(OctetWriter::ProtocolHeader) => fields == 0 && is_plain,
            Operation::Write(OctetWriter::Table(_)) => fields <= 1,
            Operation::Write(OctetWriter::Payload(_)) => true,
            Operation::Write(OctetWriter::RelayFrame) => {
                fields == 1 && is_plain && self.limit.is_none()
            }
            Operation::RecordValue | Operation::RecordSeconds => {
                fields == 0 && self.limit.is_none()
            }
        }
    }
}

fn case_from<'a>(front: Front, fields: &'a [Span], pool: &'a [u8], records: &'a [u64]) -> Case<'a> {
    Case {
        operation: front.operation,
        at: front.at.unwrap_or(0),
        limit: front.limit,
        fields,
        pool,
        records,
    }
}

impl Parts {
    // The case of which these are the parts.
    pub fn case(&self, front: Front) -> Case<'_> {
        case_from(
            front,
            self.fields.as_slice(),
            self.pool.as_slice(),
            self.records(),
        )
    }

    // A case without records, and a tape of so many words. None where there is no room for them.
    pub fn case_with_tape(&mut self, front: Front, words: usize) -> Option<(Case<'_>, &mut [u64])> {
        let Parts {
            pool,
            fields,
            tape,
            words: _,
        } = self;
        let all = tape.as_mut_slice();
        if all.len() < words {
            return None;
        }
        let case = case_from(front, fields.as_slice(), pool.as_slice(), &[]);
        Some((case, &mut all[..words]))
    }
}

// What a line says, taken into its parts. None for a line that is no case.
pub fn case_of(text: &[u8], parts: &mut Parts) -> Option<Front> {
    parts.clear();
    let (front, records) = line::front_of(text, &mut parts.pool, &mut parts.fields)?;
    if let Some(records) = records {
        parts.take_records(records)?;
    }
    parts.case(front).is_whole().then_some(front)
}
