// An answer as a code and four words. There is a function for each kind of value that is answered, and each is proved with no proof file.
// One for all, with a closure that gives a value's words (as a parameter, or by `Result::map`), is no plainer: what a clause knows of a
// closure is a relation, so that the search alone proved none of the functions that would use it, and each would need a proof file.
ghost use Rattle.std.specs.Prelude.{◌≡◌, ◌∷◌};
ghost use Rattle.types.specs.AnswerOf.{refusal, answer_of};
ghost use Rattle.writers.specs.AnswerOf.{answer_of_written};
ghost use Rattle.table_reader.specs.AnswerOf.{answer_of_records};
ghost use Rattle.amqp_ffi.specs.Reply.{reply, refusal_reply, reply_of, number, span, records, nothing};

use types::{Read, Span, WireError};
use writers::Written;

// A value: the next position, and its words.
pub(crate) fn give(words: &mut [u64; 4], next: usize, values: [u64; 3]) -> u32
    ensures { reply result words.new ≡ reply 0 (next ∷ values) }
{
    let [first, second, third] = values;
    *words = [next as u64, first, second, third];
    0
}

// A refusal: its number, and two values at most.
pub(crate) fn refuse(words: &mut [u64; 4], e: WireError) -> u32
    ensures { reply result words.new ≡ refusal_reply (refusal e) }
{
    let r = e.numbered();
    *words = [r.first, r.second, 0, 0];
    r.number as u32
}

pub(crate) fn reply_number(words: &mut [u64; 4], answer: Read<u64>) -> u32
    ensures { reply result words.new ≡ reply_of number (answer_of answer) }
{
    match answer {
        Ok((n, next)) => give(words, next.at, [n, 0, 0]),
        Err(e) => refuse(words, e),
    }
}

pub(crate) fn reply_span(words: &mut [u64; 4], answer: Read<Span>) -> u32
    ensures { reply result words.new ≡ reply_of span (answer_of answer) }
{
    match answer {
        Ok((v, next)) => {
            let [start, len] = v.to_words();
            give(words, next.at, [start, len, 0])
        }
        Err(e) => refuse(words, e),
    }
}

// How many tape records were filled.
pub(crate) fn reply_records(words: &mut [u64; 4], answer: Read<usize>) -> u32
    ensures { reply result words.new ≡ reply_of records (answer_of_records answer) }
{
    match answer {
        Ok((count, next)) => give(words, next.at, [count as u64, 0, 0]),
        Err(e) => refuse(words, e),
    }
}

pub(crate) fn reply_written(words: &mut [u64; 4], answer: Written) -> u32
    ensures { reply result words.new ≡ reply_of nothing (answer_of_written answer) }
{
    match answer {
        Ok(next) => give(words, next, [0, 0, 0]),
        Err(e) => refuse(words, e),
    }
}
