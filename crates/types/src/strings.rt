// Short and long strings: 0-9-1, 4.2.5.3. A string is answered as the span of its octets.
ghost use Rattle.std.specs.Prelude.{◌≡◌, [], ◌∷◌, get_or, option_copied};
ghost use Rattle.types.specs.Strings.{octets_in, span_at, long_str_at, short_str_at, skip_field_table_at};
ghost use Rattle.types.specs.AnswerOf.{answer_of};

use crate::{Cursor, Read, Span, WireError, has_octets};

impl Span {
    // The span that two words are: its start and its length.
    pub fn from_words(words: [u64; 2]) -> Span
        ensures { result ≡ record { start = get_or words 0 0; len = get_or words 1 0 } }
    {
        let [start, len] = words;
        Span {
            start: start as usize,
            len: len as usize,
        }
    }

    // Its start and its length.
    pub fn to_words(self) -> [u64; 2]
        ensures { result ≡ self.start ∷ self.len ∷ [] }
    {
        [self.start as u64, self.len as u64]
    }

    // Its octets, or None where it reaches outside. No sum wraps: a span may have any numbers.
    #[tactic(auto, unfolding(crate::specs::Strings::octets_in))]
    pub fn octets_in(self, s: &[u8]) -> Option<&[u8]>
        ensures { option_copied result ≡ octets_in s.now self }
    {
        s.get(self.start..)?.get(..self.len)
    }
}

impl Cursor {
    // n octets at the position.
    #[tactic(auto, unfolding(crate::specs::Strings::span_at))]
    pub fn span(self, s: &[u8], n: usize) -> Read<Span>
        ensures { answer_of result ≡ span_at n s.now self.at }
    {
        if !has_octets(s, self.at, n) {
            return Err(WireError::Truncated);
        }
        let start = self.at;
        Ok((Span { start, len: n }, Cursor { at: start + n }))
    }

    #[tactic(auto, unfolding(crate::specs::Strings::long_str_at))]
    pub fn long_str(self, s: &[u8]) -> Read<Span>
        ensures { answer_of result ≡ long_str_at s.now self.at }
    {
        let (n, next) = self.u32(s)?;
        next.span(s, n as usize)
    }

    #[tactic(auto, unfolding(crate::specs::Strings::short_str_at))]
    pub fn short_str(self, s: &[u8]) -> Read<Span>
        ensures { answer_of result ≡ short_str_at s.now self.at }
    {
        let (n, next) = self.u8(s)?;
        let (v, after) = next.span(s, n as usize)?;
        utf8::scan_utf8(&s[v.start..after.at])?;
        Ok((v, after))
    }

    // Passes over a table, of which only the length is read.
    #[tactic(auto, unfolding(crate::specs::Strings::skip_field_table_at))]
    pub fn skip_field_table(self, s: &[u8]) -> Read<()>
        ensures { answer_of result ≡ skip_field_table_at s.now self.at }
    {
        let (_, next) = self.long_str(s)?;
        Ok(((), next))
    }
}
