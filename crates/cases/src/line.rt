// The text of a line. A number is hexadecimal, of up to 16 digits. Octets are two digits each, `-` for none, and `*N` behind them gives the
// last one N times: 61*ff is 255 letters a. They go into a pool, one string behind the other. What is malformed is None.
ghost use Rattle.std.specs.Prelude.{◌≤◌, IfSome};

use crate::operation;
use crate::operation::Operation;
use types::Span;

// A case but for its fields and records: where it reads or writes, and how much it is lent.
#[derive(Clone, Copy)]
pub struct Front {
    pub operation: Operation,
    pub at: Option<usize>,
    pub limit: Option<usize>,
}

// Puts an item behind the others. What a case is taken into is made once and does not grow: None where it is full.
pub fn push<T: Copy>(items: &mut Vec<T>, item: T) -> Option<()> {
    if items.len() == items.capacity() {
        return None;
    }
    items.push(item).ok()
}

// The value of a digit.
fn digit(b: u8) -> Option<u8>
    ensures { IfSome result (λ d. d ≤ 15) }
{
    match b {
        b'0'..=b'9' => Some(b - b'0'),
        b'a'..=b'f' => Some(b - b'a' + 10),
        _ => None,
    }
}

// Not `from_str_radix`, which takes capitals and a sign too.
pub fn number(word: &[u8]) -> Option<u64> {
    if word.is_empty() {
        return None;
    }
    word.iter().try_fold(0u64, |value, b| {
        value.checked_mul(16)?.checked_add(digit(*b)? as u64)
    })
}

// The octet that two digits are.
fn octet_of(pair: &[u8]) -> Option<u8> {
    let [high, low] = pair else {
        return None;
    };
    Some(digit(*high)? * 16 + digit(*low)?)
}

// The octets of the pairs of digits with which a word begins, while there is room for them: what stands behind those. Room is made first; a
// push of each takes longer.
fn digits<'a>(word: &'a [u8], pool: &mut Vec<u8>) -> Option<&'a [u8]> {
    let start = pool.len();
    let most = (word.len() / 2).min(pool.capacity() - start);
    pool.resize(start + most, 0).ok()?;
    let mut count = 0usize;
    for (b, pair) in pool[start..].iter_mut().zip(word.chunks_exact(2)) {
        match octet_of(pair) {
            None => break,
            Some(octet) => *b = octet,
        }
        count = count.saturating_add(1);
    }
    pool.truncate(start.saturating_add(count));
    word.get(count.saturating_mul(2)..)
}

// The last octet that the pool holds so many times, counting the one that is there. The room behind that one must be for so many: an octet
// of the pool stays free.
fn repeat(pool: &mut Vec<u8>, times: u64) -> Option<()> {
    let b = pool.last().copied()?;
    let room = pool.capacity() - pool.len();
    if times == 0 || (room as u64) < times {
        return None;
    }
    let behind = times as usize - 1;
    pool.resize(pool.len() + behind, b).ok()
}

// One or more octets.
fn some_octets(word: &[u8], pool: &mut Vec<u8>) -> Option<()> {
    let start = pool.len();
    let others = digits(word, pool)?;
    match others {
        _ if pool.len() == start => None,
        [] => Some(()),
        [b'*', times @ ..] => repeat(pool, number(times)?),
        _ => None,
    }
}

// The octets of a word, behind those of the pool: where they stand there.
pub fn octets(word: &[u8], pool: &mut Vec<u8>) -> Option<Span> {
    let start = pool.len();
    match word {
        b"-" => {}
        _ => some_octets(word, pool)?,
    }
    Some(Span {
        start,
        len: pool.len().wrapping_sub(start),
    })
}

impl Front {
    // The next word.
    fn take(&mut self, word: &[u8], pool: &mut Vec<u8>, fields: &mut Vec<Span>) -> Option<()> {
        let is_early = self.limit.is_none() && fields.is_empty();
        match word {
            [b'+', digits @ ..] if is_early && self.at.is_none() => {
                self.at = Some(number(digits)? as usize);
            }
            [b'@', digits @ ..] if is_early => {
                self.limit = Some(number(digits)? as usize);
            }
            _ => push(fields, octets(word, pool)?)?,
        }
        Some(())
    }
}

// OP [+N] [@N] FIELD.., and the records behind a `/`, if there are any.
pub fn front_of<'a>(
    text: &'a [u8],
    pool: &mut Vec<u8>,
    fields: &mut Vec<Span>,
) -> Option<(Front, Option<&'a [u8]>)> {
    let mut words = text.split(|b| *b == b' ');
    let name = words.next()?;
    let mut front = Front {
        operation: operation::of(name)?,
        at: None,
        limit: None,
    };
    // Where the next word begins.
    let mut next = name.len().saturating_add(1);
    for word in words {
        next = next.saturating_add(word.len()).saturating_add(1);
        match word {
            b"/" => return Some((front, text.get(next..))),
            _ => front.take(word, pool, fields)?,
        }
    }
    Some((front, None))
}

// What stands before a `/`, and the records behind it, if there are any; neither is judged. `front_of` takes both in its one pass.
pub fn split_at_slash(text: &[u8]) -> Option<(&[u8], Option<&[u8]>)> {
    let Some(slash) = text.iter().position(|b| *b == b'/') else {
        return Some((text, None));
    };
    let front = text[..slash].strip_suffix(b" ")?;
    match &text[slash + 1..] {
        [] => Some((front, None)),
        [b' ', records @ ..] => Some((front, Some(records))),
        _ => None,
    }
}

#[cfg(test)]
mod tests {
    use super::*;

    #[test]
    fn splits_at_the_first_slash(rt: HostRuntime) {
        let alone: [&[u8]; 3] = [b"walk 00", b"", b" "];
        for text in alone {
            assert!(rt; split_at_slash(text) == Some((text, None)));
        }
        let with_records: [(&[u8], &[u8], &[u8]); 4] = [
            (b"walk 00 / t:61:1:0", b"walk 00", b"t:61:1:0"),
            (b"walk / a / b", b"walk", b"a / b"),
            (b"walk / ", b"walk", b""),
            (b" / a", b"", b"a"),
        ];
        for (text, front, records) in with_records {
            assert!(rt; split_at_slash(text) == Some((front, Some(records))));
        }
        assert!(rt; split_at_slash(b"walk /") == Some((b"walk", None)));
        let malformed: [&[u8]; 4] = [b"walk/ a", b"walk /a", b"/ a", b"/"];
        for text in malformed {
            assert!(rt; split_at_slash(text).is_none());
        }
    }
}
