// Integers of 8, 16, 32 and 64 bits: 0-9-1, 4.2.5.1.
ghost use Rattle.std.specs.Prelude.{◌≡◌, ◌+◌, ◌≤◌, length, take, drop};
ghost use Rattle.bits.specs.Signed.{twos};
ghost use Rattle.types.specs.Octets.{number_at, number_width, uint_at};
ghost use Rattle.types.specs.AnswerOf.{answer_of, answer_with};

use crate::{Cursor, Number, Read, WireError, has_octets};

// Octets of a known number at a place where they all are.
fn octets_at<const N: usize>(s: &[u8], at: usize) -> [u8; N]
    requires { at + N ≤ length s.now }
    ensures { result ≡ take N (drop at s.now) }
{
    *s[at..].first_chunk().unwrap()
}

// The number of a width at a place where its octets all are.
#[tactic(auto, using(crate::proofs::NumberLaws::number_2, crate::proofs::NumberLaws::number_4, crate::proofs::NumberLaws::number_8), unfolding(crate::specs::Octets::number_at))]
fn number_of(s: &[u8], at: usize, width: Number) -> u64
    requires { at + number_width width ≤ length s.now }
    ensures { result ≡ number_at (number_width width) s.now at }
{
    match width {
        Number::U8 => s[at] as u64,
        Number::U16 => u16::from_be_bytes(octets_at(s, at)) as u64,
        Number::U32 => u32::from_be_bytes(octets_at(s, at)) as u64,
        Number::U64 => u64::from_be_bytes(octets_at(s, at)),
    }
}

impl Number {
    // How many octets it has.
    pub fn octets(self) -> usize
        ensures { result ≡ number_width self }
    {
        match self {
            Number::U8 => 1,
            Number::U16 => 2,
            Number::U32 => 4,
            Number::U64 => 8,
        }
    }
}

impl Cursor {
    // The number of a width at the position.
    #[tactic(auto, unfolding(crate::specs::Octets::uint_at))]
    pub fn number(self, s: &[u8], width: Number) -> Read<u64>
        ensures { answer_of result ≡ uint_at (number_width width) s.now self.at }
    {
        let k = width.octets();
        if !has_octets(s, self.at, k) {
            return Err(WireError::Truncated);
        }
        let next = Cursor { at: self.at + k };
        Ok((number_of(s, self.at, width), next))
    }

    // One method for each type, since document 01 names them one by one.
    pub fn u8(self, s: &[u8]) -> Read<u8>
        ensures { answer_of result ≡ uint_at 1 s.now self.at }
    {
        let (n, next) = self.number(s, Number::U8)?;
        Ok((n as u8, next))
    }

    pub fn u16(self, s: &[u8]) -> Read<u16>
        ensures { answer_of result ≡ uint_at 2 s.now self.at }
    {
        let (n, next) = self.number(s, Number::U16)?;
        Ok((n as u16, next))
    }

    pub fn u32(self, s: &[u8]) -> Read<u32>
        ensures { answer_of result ≡ uint_at 4 s.now self.at }
    {
        let (n, next) = self.number(s, Number::U32)?;
        Ok((n as u32, next))
    }

    pub fn u64(self, s: &[u8]) -> Read<u64>
        ensures { answer_of result ≡ uint_at 8 s.now self.at }
    {
        self.number(s, Number::U64)
    }

    pub fn i8(self, s: &[u8]) -> Read<i8>
        ensures { answer_with (twos 8) result ≡ uint_at 1 s.now self.at }
    {
        let (n, next) = self.u8(s)?;
        Ok((n.cast_signed(), next))
    }

    pub fn i16(self, s: &[u8]) -> Read<i16>
        ensures { answer_with (twos 16) result ≡ uint_at 2 s.now self.at }
    {
        let (n, next) = self.u16(s)?;
        Ok((n.cast_signed(), next))
    }

    pub fn i32(self, s: &[u8]) -> Read<i32>
        ensures { answer_with (twos 32) result ≡ uint_at 4 s.now self.at }
    {
        let (n, next) = self.u32(s)?;
        Ok((n.cast_signed(), next))
    }

    pub fn i64(self, s: &[u8]) -> Read<i64>
        ensures { answer_with (twos 64) result ≡ uint_at 8 s.now self.at }
    {
        let (n, next) = self.u64(s)?;
        Ok((n.cast_signed(), next))
    }
}
