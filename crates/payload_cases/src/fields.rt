// The fields of a case as the words of a payload, in wire order: numbers at their own width, flags 00 or 01, strings as spans of the pool.
// A property that is a table has no field: its records stand behind the fields. Where the fields are none, there is None.
use frame::FrameType;
use method::layout::{Bits, Field, layout_of};
use method::present::properties_present;
use std::slice::IterMut;
use table_cases::case::{Case, u16_of};
use tables::tape::records_in;
use types::{Cursor, Number, Span};

// The words of a payload.
pub type Words = [u64; 26];

// Takes the fields of a case one by one, and puts words one behind the other.
#[derive(Drop)]
struct Taking<'a, 'w> {
    case: Case<'a>,
    fields: &'a [Span],
    words: IterMut<'w, u64>,
}

impl<'a, 'w> Taking<'a, 'w> {
    fn next(&mut self) -> Option<Span> {
        let (first, others) = self.fields.split_first()?;
        self.fields = others;
        Some(*first)
    }

    fn next_octets(&mut self) -> Option<&'a [u8]> {
        self.next()?.octets_in(self.case.pool)
    }

    fn next_number(&mut self, number: Number) -> Option<u64> {
        let s = self.next_octets()?;
        let (n, next) = Cursor { at: 0 }.number(s, number).ok()?;
        (next.at == s.len()).then_some(n)
    }

    fn next_u16(&mut self) -> Option<u16> {
        u16_of(self.next_octets()?)
    }

    fn put(&mut self, n: u64) -> Option<()> {
        *self.words.next()? = n;
        Some(())
    }

    fn take_string(&mut self) -> Option<()> {
        let span = self.next()?;
        self.put(span.start as u64)?;
        self.put(span.len as u64)
    }

    fn take_flag(&mut self) -> Option<u64> {
        match self.next_octets()? {
            [0] => Some(0),
            [1] => Some(1),
            _ => None,
        }
    }

    // The first flag is the lowest.
    fn take_two_flags(&mut self) -> Option<()> {
        let first = self.take_flag()?;
        let second = self.take_flag()?;
        self.put(first | second << 1)
    }

    // The arguments of one field of a layout.
    fn take(&mut self, field: Field) -> Option<()> {
        match field {
            Field::Number(number) => {
                let n = self.next_number(number)?;
                self.put(n)
            }
            Field::ShortStr => self.take_string(),
            Field::Bits(Bits::Both) => self.take_two_flags(),
            Field::Bits(_) => {
                let flag = self.take_flag()?;
                self.put(flag)
            }
            Field::Login => {
                self.take_string()?;
                self.take_string()
            }
            Field::Table => self.put(records_in(self.case.records) as u64),
            Field::Fixed(_) => Some(()),
        }
    }

    fn take_command(&mut self) -> Option<()> {
        let class = self.next_u16()?;
        let method = self.next_u16()?;
        self.put(class as u64)?;
        self.put(method as u64)?;
        for field in layout_of(class, method)? {
            self.take(*field)?;
        }
        Some(())
    }

    // Flags 2 to 0 have no property.
    fn take_header(&mut self) -> Option<()> {
        let class = self.next_u16()?;
        let body_size = self.next_number(Number::U64)?;
        let flags = self.next_u16()?;
        if flags % 8 != 0 {
            return None;
        }
        self.put(class as u64)?;
        self.put(body_size)?;
        self.put(flags as u64 / 8)?;
        for field in properties_present(flags / 8) {
            self.take(field)?;
        }
        Some(())
    }

    // A frame type and the fields of its payload, all of them.
    fn take_payload(&mut self, frame_type: FrameType) -> Option<()> {
        self.put(frame_type.octet() as u64)?;
        match frame_type {
            FrameType::Method => self.take_command()?,
            FrameType::Header => self.take_header()?,
            FrameType::Body => self.take_string()?,
            FrameType::Heartbeat => {}
        }
        self.fields.is_empty().then_some(())
    }
}

// The payload of this frame type that fields are, all of them: those of a command, of a content header, the octets of a body, or none.
pub fn payload_words(frame_type: FrameType, case: Case, fields: &[Span]) -> Option<Words> {
    let mut words = [0u64; 26];
    let mut taking = Taking {
        case,
        fields,
        words: words.iter_mut(),
    };
    taking.take_payload(frame_type)?;
    Some(words)
}
