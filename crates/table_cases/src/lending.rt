// The tape that a reader is lent: a used record, free ones, and words behind the last that are no record. `fill_words` fills them all, so
// that it shows afterwards what was changed.
ghost use Rattle.std.specs.Prelude.{◌≤◌, IfSome};

use cases::lent::kept_words;
use tables::tape::{RECORD_WORDS, records_in};

// One record in front is used.
pub const USED: usize = 1;

// Words that are no record, and the most records that are lent where a case does not say how many.
const LOOSE: usize = 3;

const MOST: usize = 65_536;

// How many of `all` words are lent for some items of so many words and for loose words behind them, if those are not too many.
pub fn room_for(items: usize, item_words: usize, loose: usize, all: usize) -> Option<usize>
    ensures { IfSome result (λ n. n ≤ all) }
{
    let words = items.checked_mul(item_words)?.checked_add(loose)?;
    (words <= all).then_some(words)
}

// How many words a tape of `all` words can lend for `records` records.
pub fn words_for(records: usize, all: usize) -> Option<usize>
    ensures { IfSome result (λ n. n ≤ all) }
{
    room_for(records, RECORD_WORDS, LOOSE, all)
}

// The words of a tape of `all` words that are lent to a reader of `len` octets, by the limit of its case: a value takes an octet or more,
// so as many records as octets suffice.
pub fn lent_words(limit: Option<usize>, len: usize, all: usize) -> Option<usize>
    ensures { IfSome result (λ n. n ≤ all) }
{
    let free = limit.unwrap_or(len.min(MOST));
    words_for(free.checked_add(USED)?, all)
}

// Whether nothing is changed but `count` records behind the used ones.
pub fn kept(tape: &[u64], count: usize) -> bool {
    let records = records_in(tape);
    USED <= records
        && count <= records - USED
        && kept_words(&tape[..USED * RECORD_WORDS], 0)
        && kept_words(tape, (USED + count) * RECORD_WORDS)
}
