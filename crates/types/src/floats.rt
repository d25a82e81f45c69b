// Floats by their bits: a NaN is answered as its bits, every other pattern as the float.
ghost use Rattle.std.specs.Prelude.{◌≡◌};
ghost use Rattle.std.specs.Float.{binary32, binary64};
ghost use Rattle.types.specs.Floats.{float_at, float_of};
ghost use Rattle.types.specs.AnswerOf.{answer_with, float_value};

use crate::{Cursor, FloatOrNan, Read};

impl FloatOrNan<f32, u32> {
    // What some bits are. Without the sign, the bits of a NaN are greater than infinity's.
    pub fn from_bits(n: u32) -> Self
        ensures { float_value result ≡ float_of binary32 n }
    {
        if 0x7F80_0000 < n % 0x8000_0000 {
            FloatOrNan::Nan(n)
        } else {
            FloatOrNan::Float(f32::from_bits(n))
        }
    }
}

// The same of 64 bits. One function for both would need a trait of formats, with more clauses than these two have.
impl FloatOrNan<f64, u64> {
    pub fn from_bits(n: u64) -> Self
        ensures { float_value result ≡ float_of binary64 n }
    {
        if 0x7FF0_0000_0000_0000 < n % 0x8000_0000_0000_0000 {
            FloatOrNan::Nan(n)
        } else {
            FloatOrNan::Float(f64::from_bits(n))
        }
    }
}

impl Cursor {
    #[tactic(auto, unfolding(crate::specs::Floats::float_at))]
    pub fn f32(self, s: &[u8]) -> Read<FloatOrNan<f32, u32>>
        ensures { answer_with float_value result ≡ float_at binary32 4 s.now self.at }
    {
        let (n, next) = self.u32(s)?;
        Ok((FloatOrNan::<f32, u32>::from_bits(n), next))
    }

    #[tactic(auto, unfolding(crate::specs::Floats::float_at))]
    pub fn f64(self, s: &[u8]) -> Read<FloatOrNan<f64, u64>>
        ensures { answer_with float_value result ≡ float_at binary64 8 s.now self.at }
    {
        let (n, next) = self.u64(s)?;
        Ok((FloatOrNan::<f64, u64>::from_bits(n), next))
    }
}
