// From words to a content header: each property is taken if its flag is set, and then its words.
ghost use Rattle.std.specs.Prelude.{◌≡◌, ◌%◌};
ghost use Rattle.method.specs.AnswerOf.{header_of};
ghost use Rattle.method_words.specs.Words.{header_with};

use crate::cut::low_u8;
use method::present::FIRST_FLAG;
use method::{ContentHeader, ContentProperties};
use types::Span;

// The properties that are left: the flags of them, the first one highest, and where their words begin.
#[derive(Drop)]
struct PropertyReader<'a> {
    words: &'a [u64; 22],
    flags: u16,
    at: usize,
}

impl<'a> PropertyReader<'a> {
    ghost use Rattle.std.specs.Prelude.{◌≡◌, ◌+◌, ◌*◌, ◌%◌, ◌^◌, ◌≤◌, ◌<◌, IfSome};
    ghost use Rattle.method_words.specs.Properties.{is_next, next_of, rest_of, span_in, number_in};

    // Whether the next property is present. The flags behind it move up to its place, as in method's PresentFields: a function for both
    // would have to answer two things, and say no less.
    fn next_flag(&mut self) -> bool
        ensures flag { result ≡ is_next self.old }
        ensures rest { self.new ≡ record { words = self.old.words; flags = self.old.flags % 4096 * 2; at = self.old.at } }
    {
        let present = FIRST_FLAG <= self.flags;
        self.flags = self.flags % FIRST_FLAG * 2;
        present
    }

    fn next_span(&mut self) -> Option<Span>
        requires { self.old.at + 2 ≤ 22 }
        ensures taken { result ≡ next_of span_in self.old }
        ensures rest { self.new ≡ rest_of 2 self.old }
        ensures place { self.new.at ≤ self.old.at + 2 }
    {
        if !self.next_flag() {
            return None;
        }
        let at = self.at;
        self.at = at + 2;
        Some(Span::from_words([self.words[at], self.words[at + 1]]))
    }

    fn next_number(&mut self) -> Option<u64>
        requires { self.old.at + 1 ≤ 22 }
        ensures taken { result ≡ next_of number_in self.old }
        ensures fits { IfSome result (λ n. n < 256 ^ 8) }
        ensures rest { self.new ≡ rest_of 1 self.old }
        ensures place { self.new.at ≤ self.old.at + 1 }
    {
        if !self.next_flag() {
            return None;
        }
        let at = self.at;
        self.at = at + 1;
        let word = self.words[at];
        Some(word)
    }
}

// A header from the words of its properties; a bit of `present` for each of the thirteen, the first one highest, and no bit above
// them counts. Numbers are cut to their width. In parts, not as HeaderWords: its callers have the words apart from the numbers, and would
// put them together for this to take apart.
pub fn header_of(class: u16, body_size: u64, present: u16, words: [u64; 22]) -> ContentHeader
    ensures { header_of result ≡ header_with class body_size (present % 8192) words }
{
    let mut rest = PropertyReader {
        words: &words,
        flags: present % (2 * FIRST_FLAG),
        at: 0,
    };
    ContentHeader {
        class,
        body_size,
        properties: ContentProperties {
            content_type: rest.next_span(),
            content_encoding: rest.next_span(),
            headers: rest.next_number().map(|records| records as usize),
            delivery_mode: rest.next_number().map(low_u8),
            priority: rest.next_number().map(low_u8),
            correlation_id: rest.next_span(),
            reply_to: rest.next_span(),
            expiration: rest.next_span(),
            message_id: rest.next_span(),
            timestamp: rest.next_number(),
            type_: rest.next_span(),
            user_id: rest.next_span(),
            app_id: rest.next_span(),
        },
    }
}
