// From a content header to its words: its properties are put one behind the other, each with its flag.
ghost use Rattle.std.specs.Prelude.{◌≡◌};
ghost use Rattle.method.specs.AnswerOf.{header_of};
ghost use Rattle.method_words.specs.Words.{header_words};

use crate::HeaderWords;
use method::ContentHeader;
use types::Span;

// Where the words of the next property go, and a flag for each so far, the last one lowest. The words stand beside it: in one struct with
// them, it took 329 instructions to put a header in place of 300.
#[derive(Drop)]
struct PropertyWriter {
    at: usize,
    flags: u16,
}

impl PropertyWriter {
    ghost use Rattle.std.specs.Prelude.{◌≡◌, ◌+◌, ◌*◌, ◌≤◌, ◌<◌};
    ghost use Rattle.method.specs.Fields.{number, short_str};
    ghost use Rattle.method_words.specs.Properties.{optional_words, Put};

    fn put_span(&mut self, words: &mut [u64; 22], value: Option<Span>)
        requires { (self.old.flags < 4096) × (self.old.at + 2 ≤ 22) }
        ensures put { Put (optional_words short_str value) self.old self.new words.old words.new }
        ensures flags { self.new.flags ≤ self.old.flags * 2 + 1 }
        ensures place { self.new.at ≤ self.old.at + 2 }
    {
        self.flags *= 2;
        if let Some(v) = value {
            // Word by word: a copy of Span::to_words to self.at..self.at + 2 would name the place twice too, and say no more.
            words[self.at] = v.start as u64;
            words[self.at + 1] = v.len as u64;
            self.at += 2;
            self.flags += 1;
        }
    }

    fn put_number(&mut self, words: &mut [u64; 22], value: Option<u64>)
        requires { (self.old.flags < 4096) × (self.old.at + 1 ≤ 22) }
        ensures put { Put (optional_words (number 8) value) self.old self.new words.old words.new }
        ensures flags { self.new.flags ≤ self.old.flags * 2 + 1 }
        ensures place { self.new.at ≤ self.old.at + 1 }
    {
        self.flags *= 2;
        if let Some(n) = value {
            words[self.at] = n;
            self.at += 1;
            self.flags += 1;
        }
    }
}

// A content header as words; those behind its properties are 0. No From, as of call_of.
pub fn header_words(header: ContentHeader) -> HeaderWords
    ensures { result ≡ header_words (header_of header) }
{
    let properties = header.properties;
    let mut words = [0u64; 22];
    let mut writer = PropertyWriter { at: 0, flags: 0 };
    writer.put_span(&mut words, properties.content_type);
    writer.put_span(&mut words, properties.content_encoding);
    writer.put_number(&mut words, properties.headers.map(|records| records as u64));
    writer.put_number(&mut words, properties.delivery_mode.map(u64::from));
    writer.put_number(&mut words, properties.priority.map(u64::from));
    writer.put_span(&mut words, properties.correlation_id);
    writer.put_span(&mut words, properties.reply_to);
    writer.put_span(&mut words, properties.expiration);
    writer.put_span(&mut words, properties.message_id);
    writer.put_number(&mut words, properties.timestamp);
    writer.put_span(&mut words, properties.type_);
    writer.put_span(&mut words, properties.user_id);
    writer.put_span(&mut words, properties.app_id);
    HeaderWords {
        class: header.class,
        body_size: header.body_size,
        present: writer.flags,
        words,
    }
}
