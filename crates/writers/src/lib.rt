// Writers into lent octets at a place, which goes in, and the next one comes out with the answer, as a reader's position does: a struct
// of both would have to be put back after a refusal, and C lends them apart. Each judges first, so that a refusal has written nothing.
#![tactic(auto)]

ghost use Rattle.std.specs.Prelude.{◌≡◌, ◌++◌, ◌+◌, ◌≤◌, length, take, drop, None};
ghost use Rattle.types.specs.Octets.{number_width, octets};
ghost use Rattle.bits.specs.Signed.{twos};
ghost use Rattle.types.specs.AnswerOf.{judgement};
ghost use Rattle.types.specs.Memory.{splice, outcome};
ghost use Rattle.types.specs.Strings.{judge_short_str};
ghost use Rattle.writers.specs.Writers.{write_at, write_uint, write_octets, write_short_str, write_long_str};
ghost use Rattle.writers.specs.AnswerOf.{answer_of_written};

pub use types::has_octets;
use types::{Number, WireError};

// The greatest length of a long string or a table: what four octets tell.
pub const MAX_LENGTH: usize = 0xFFFF_FFFF;

// The position behind what was written, or the refusal.
pub type Written = Result<usize, WireError>;

// Puts octets of a known number where they all have space.
#[tactic(auto, using(crate::proofs::WriterLaws::part_copied))]
fn put_array<const N: usize>(out: &mut [u8], at: usize, octets: [u8; N])
    requires { at + N ≤ length out.old }
    ensures { out.new ≡ splice at octets.entry out.old }
{
    out[at..at + N].copy_from_slice(&octets);
}

// Puts the low octets of n, as many as the width has, where they all have space. Each width is cut where it is put: what cuts words
// elsewhere (method_words) stands above this crate.
#[tactic(auto, using(crate::proofs::WriterLaws::octets_2, crate::proofs::WriterLaws::octets_4, crate::proofs::WriterLaws::octets_8))]
fn put_number(out: &mut [u8], at: usize, width: Number, n: u64)
    requires { at + number_width width ≤ length out.old }
    ensures { out.new ≡ splice at (octets (number_width width) n) out.old }
{
    match width {
        Number::U8 => put_array(out, at, [(n % 0x100) as u8]),
        Number::U16 => put_array(out, at, ((n % 0x1_0000) as u16).to_be_bytes()),
        Number::U32 => put_array(out, at, ((n % 0x1_0000_0000) as u32).to_be_bytes()),
        Number::U64 => put_array(out, at, n.to_be_bytes()),
    }
}

// The most octets that are moved at once. For more than these a C library may copy by `rep movsb`, which on some processors takes
// twenty times as long where the two places lie badly to each other.
const PART: usize = 0x0800;

// Octets one by one: to write three takes 63 instructions so, and 70 with a copy of the slice.
fn put_each(out: &mut [u8], at: usize, s: &[u8])
    requires { at + length s.now ≤ length out.old }
    ensures { out.new ≡ splice at s.now out.old }
{
    for (i, octet) in s.iter().enumerate() {
        out[at + i] = *octet;
    }
}

// Moves k octets by way of a part. It overlaps neither slice, so the compiler makes one move of the two loops, in registers or by
// memmove, and the part goes; of one loop from slice to slice it makes no memmove, since the two might overlap. The library's
// copy_from_slice in place of both was tried: to write 8 octets took 69 instructions in place of 58. `zip` of the two cut to k octets would
// say no less than the places do; in put_each it took 8 to 19 more.
fn put_part(out: &mut [u8], to: usize, s: &[u8], from: usize, k: usize)
    requires { (k ≤ 2048) × (from + k ≤ length s.now) × (to + k ≤ length out.old) }
    ensures { out.new ≡ splice to (take k (drop from s.now)) out.old }
{
    let mut part = [0u8; PART];
    for i in 0..k {
        part[i] = s[from + i];
    }
    for j in 0..k {
        out[to + j] = part[j];
    }
}

// The first k octets and the last k, which may overlap: two moves for every length from k to twice k.
fn put_ends(out: &mut [u8], at: usize, s: &[u8], k: usize)
    requires { (k ≤ 2048) × (k ≤ length s.now) × (length s.now ≤ k + k) × (at + length s.now ≤ length out.old) }
    ensures { out.new ≡ splice at s.now out.old }
{
    let last = s.len() - k;
    put_part(out, at, s, 0, k);
    put_part(out, at + last, s, last, k);
}

// Any number of octets, a part at a time. i is the place in both slices: with `for part in s.chunks(PART)` that in out would be counted
// beside them, which is no plainer. Chunks that copy_from_slice copies in place of put_part were tried: to write 64 octets took 104
// instructions in place of 89, and 65,536 took 7,812 in place of 7,370.
fn put_parts(out: &mut [u8], at: usize, s: &[u8])
    requires { at + length s.now ≤ length out.old }
    ensures { out.new ≡ splice at s.now out.old }
{
    let n = s.len();
    let mut i = 0;
    while PART < n - i {
        put_part(out, at + i, s, i, PART);
        i += PART;
    }
    put_part(out, at + i, s, i, n - i);
}

// Puts octets where they all have space.
fn put_octets(out: &mut [u8], at: usize, s: &[u8])
    requires { at + length s.now ≤ length out.old }
    ensures { out.new ≡ splice at s.now out.old }
{
    match s.len() {
        0..=3 => put_each(out, at, s),
        4..=8 => put_ends(out, at, s, 4),
        9..=16 => put_ends(out, at, s, 8),
        17..=32 => put_ends(out, at, s, 16),
        _ => put_parts(out, at, s),
    }
}

// The low octets of a number: as many as the width has.
#[tactic(auto, unfolding(crate::specs::Writers::write_uint, crate::specs::Writers::write_at))]
pub fn write_number(out: &mut [u8], at: usize, width: Number, n: u64) -> Written
    ensures { outcome (answer_of_written result) out.new ≡ write_uint (number_width width) n at out.old }
{
    let k = width.octets();
    if !has_octets(out, at, k) {
        return Err(WireError::NoSpace);
    }
    put_number(out, at, width, n);
    Ok(at + k)
}

// Octets behind their number. The caller has judged that the width has it.
#[tactic(auto, unfolding(crate::specs::Writers::write_at))]
fn write_counted(out: &mut [u8], at: usize, width: Number, s: &[u8]) -> Written
    ensures { outcome (answer_of_written result) out.new ≡ write_at None (octets (number_width width) (length s.now) ++ s.now) at out.old }
{
    let k = width.octets();
    if !has_octets(out, at, k + s.len()) {
        return Err(WireError::NoSpace);
    }
    put_number(out, at, width, s.len() as u64);
    put_octets(out, at + k, s);
    Ok(at + k + s.len())
}

// One writer for each type, as the Rust has them and as document 01 names the methods that read them.
pub fn write_u8(out: &mut [u8], at: usize, n: u8) -> Written
    ensures { outcome (answer_of_written result) out.new ≡ write_uint 1 n at out.old }
{
    write_number(out, at, Number::U8, n as u64)
}

pub fn write_u16(out: &mut [u8], at: usize, n: u16) -> Written
    ensures { outcome (answer_of_written result) out.new ≡ write_uint 2 n at out.old }
{
    write_number(out, at, Number::U16, n as u64)
}

pub fn write_u32(out: &mut [u8], at: usize, n: u32) -> Written
    ensures { outcome (answer_of_written result) out.new ≡ write_uint 4 n at out.old }
{
    write_number(out, at, Number::U32, n as u64)
}

pub fn write_u64(out: &mut [u8], at: usize, n: u64) -> Written
    ensures { outcome (answer_of_written result) out.new ≡ write_uint 8 n at out.old }
{
    write_number(out, at, Number::U64, n)
}

pub fn write_i8(out: &mut [u8], at: usize, z: i8) -> Written
    ensures { outcome (answer_of_written result) out.new ≡ write_uint 1 (twos 8 z) at out.old }
{
    write_u8(out, at, z.cast_unsigned())
}

pub fn write_i16(out: &mut [u8], at: usize, z: i16) -> Written
    ensures { outcome (answer_of_written result) out.new ≡ write_uint 2 (twos 16 z) at out.old }
{
    write_u16(out, at, z.cast_unsigned())
}

pub fn write_i32(out: &mut [u8], at: usize, z: i32) -> Written
    ensures { outcome (answer_of_written result) out.new ≡ write_uint 4 (twos 32 z) at out.old }
{
    write_u32(out, at, z.cast_unsigned())
}

pub fn write_i64(out: &mut [u8], at: usize, z: i64) -> Written
    ensures { outcome (answer_of_written result) out.new ≡ write_uint 8 (twos 64 z) at out.old }
{
    write_u64(out, at, z.cast_unsigned())
}

// Octets as they are.
#[tactic(auto, unfolding(crate::specs::Writers::write_octets, crate::specs::Writers::write_at))]
pub fn write_octets(out: &mut [u8], at: usize, s: &[u8]) -> Written
    ensures { outcome (answer_of_written result) out.new ≡ write_octets s.now at out.old }
{
    if !has_octets(out, at, s.len()) {
        return Err(WireError::NoSpace);
    }
    put_octets(out, at, s);
    Ok(at + s.len())
}

// What a short string must be: 255 octets at most, then UTF-8.
pub fn judge_short_str(s: &[u8]) -> Result<(), WireError>
    ensures { judgement result ≡ judge_short_str s.now }
{
    if 255 < s.len() {
        return Err(WireError::ShortStrTooLong);
    }
    utf8::scan_utf8(s)?;
    Ok(())
}

// A short string is judged, then the space.
pub fn write_short_str(out: &mut [u8], at: usize, s: &[u8]) -> Written
    ensures { outcome (answer_of_written result) out.new ≡ write_short_str s.now at out.old }
{
    judge_short_str(s)?;
    write_counted(out, at, Number::U8, s)
}

// A long string: its length, then the space is judged.
#[tactic(auto, unfolding(crate::specs::Writers::write_long_str, crate::specs::Writers::write_at))]
pub fn write_long_str(out: &mut [u8], at: usize, s: &[u8]) -> Written
    ensures { outcome (answer_of_written result) out.new ≡ write_long_str s.now at out.old }
{
    if MAX_LENGTH < s.len() {
        return Err(WireError::TooLong);
    }
    write_counted(out, at, Number::U32, s)
}
