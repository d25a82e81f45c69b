// The UTF-8 check of RFC 3629.
#![tactic(auto)]

ghost use Rattle.std.specs.Prelude.{◌≡◌, true, length};
ghost use Rattle.utf8.specs.Utf8.{none, fault, followers};
ghost use Rattle.utf8.specs.AnswerOf.{Ascii, answer_of_lead, answer_of_scan};

// What is no UTF-8: the place of its first ill-formed character. All octets before it are characters.
#[derive(Clone, Copy, Debug, PartialEq, Eq)]
pub struct Utf8Error {
    pub valid_up_to: usize,
}

// What a first octet says: how many octets follow, and the limits of the second. None begins no character. Two octets, not a
// `RangeInclusive`: that has a third field, whether it is used up, of which this clause and the invariant of the scan would have to speak.
fn lead_of(b: u8) -> Option<(usize, u8, u8)>
    ensures { answer_of_lead result ≡ followers b }
{
    match b {
        0x00..=0x7F => Some((0, 0x80, 0xBF)),
        0xC2..=0xDF => Some((1, 0x80, 0xBF)),
        0xE0 => Some((2, 0xA0, 0xBF)),
        0xE1..=0xEC => Some((2, 0x80, 0xBF)),
        0xED => Some((2, 0x80, 0x9F)),
        0xEE..=0xEF => Some((2, 0x80, 0xBF)),
        0xF0 => Some((3, 0x90, 0xBF)),
        0xF1..=0xF3 => Some((3, 0x80, 0xBF)),
        0xF4 => Some((3, 0x80, 0x8F)),
        _ => None,
    }
}

// Whether all octets are ASCII characters. The loop has no way out in its middle, so that it can be done many octets at a time: with `all`,
// which has one, 4,096 octets took 10,262 instructions in place of 3,095. A `fold` makes the same instructions as the loop, and is no
// plainer: what holds on the way would be said of its closure.
fn ascii_part(part: &[u8]) -> bool
    ensures { result ≡ true → Ascii part.now 0 (length part.now) }
{
    let mut ascii = true;
    for octet in part {
        if !octet.is_ascii() {
            ascii = false;
        }
    }
    ascii
}

// The same, eight octets at a time, which makes one load of short names. The last eight stand apart, since they may overlap those before:
// over the lengths from 4 to 12 together this took 405 instructions, all eights of s 414, and a `while` over places 382.
fn is_ascii(s: &[u8]) -> bool
    ensures { result ≡ true → none ≡ fault s.now }
{
    let n = s.len();
    if n < 8 {
        return ascii_part(s);
    }
    for eight in s[..n - 1].chunks_exact(8) {
        if !ascii_part(eight) {
            return false;
        }
    }
    ascii_part(&s[n - 8..])
}

// Character by character. Document 01 names the form: a loop over characters, and in it one over the octets that follow, left by the
// label with the verdict. Where the next character begins depends on the first octet, so no iterator goes from one to the other.
fn scan_characters(s: &[u8]) -> Result<(), Utf8Error>
    ensures { answer_of_scan result ≡ fault s.now }
{
    let mut i = 0;
    'scan: loop {
        if s.len() <= i {
            break 'scan Ok(());
        }
        let start = i;
        let ill_formed = Err(Utf8Error { valid_up_to: start });
        let Some((more, second_low, second_high)) = lead_of(s[i]) else {
            break 'scan ill_formed;
        };
        i += 1;
        let mut left = more;
        let mut low = second_low;
        let mut high = second_high;
        while 0 < left {
            if s.len() <= i {
                break 'scan ill_formed;
            }
            let c = s[i];
            if c < low {
                break 'scan ill_formed;
            }
            if high < c {
                break 'scan ill_formed;
            }
            low = 0x80;
            high = 0xBF;
            left -= 1;
            i += 1;
        }
    }
}

// The first ill-formed character, if there is one. The library's `str::from_utf8` finds it too, but document 01 names the form, by ranges
// of the first octet that give the limits of the second. Measured: of 4 to 12 ASCII octets, as names in tables have, from_utf8 took 67 to
// 84 instructions in place of 29 to 44, and of 4,096 it took 931 in place of 3,095.
pub fn scan_utf8(s: &[u8]) -> Result<(), Utf8Error>
    ensures { answer_of_scan result ≡ fault s.now }
{
    if is_ascii(s) {
        return Ok(());
    }
    scan_characters(s)
}
