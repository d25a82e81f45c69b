// Fixed fields: the octets that stand in every command of a kind.
ghost use Rattle.std.specs.Prelude.{◌≡◌, length};
ghost use Rattle.types.specs.AnswerOf.{answer_of};
ghost use Rattle.types.specs.Memory.{outcome};
ghost use Rattle.writers.specs.AnswerOf.{answer_of_written};
ghost use Rattle.writers.specs.Writers.{write_octets};
ghost use Rattle.method.specs.Reading.{fixed_at};
ghost use Rattle.method.specs.Layout.{field_of, fixed_octets, fixed_part};

use crate::layout::Field;
use types::{Cursor, Read, WireError};
use writers::{Written, write_octets};

// Each kind by its name, the zeros too: a number of zeros would go past the four that are there, and would need an invariant.
#[derive(Clone, Copy, Debug, PartialEq, Eq)]
pub enum Fixed {
    Zero,
    TwoZeros,
    FourZeros,
    ClientProperties,
    Plain,
    EnUs,
}

// product ZeroDDS, version 1.0, as S
const CLIENT_PROPERTIES: [u8; 40] =
    *b"\0\0\0\x24\x07productS\0\0\0\x07ZeroDDS\x07versionS\0\0\0\x031.0";

const PLAIN: [u8; 6] = *b"\x05PLAIN";

const EN_US: [u8; 6] = *b"\x05en_US";

impl Fixed {
    pub fn octets(self) -> &'static [u8]
        ensures { result.now ≡ fixed_octets self }
    {
        match self {
            Fixed::Zero => &[0],
            Fixed::TwoZeros => &[0, 0],
            Fixed::FourZeros => &[0, 0, 0, 0],
            Fixed::ClientProperties => &CLIENT_PROPERTIES,
            Fixed::Plain => &PLAIN,
            Fixed::EnUs => &EN_US,
        }
    }
}

// The octets of a fixed field; an argument has none.
fn octets_of(field: Field) -> &'static [u8]
    ensures { result.now ≡ fixed_part (field_of field) }
{
    match field {
        Field::Fixed(fixed) => fixed.octets(),
        _ => &[],
    }
}

// Passes over a fixed field, which must stand at the position. `starts_with` would not tell an end that comes too early, which is
// Truncated, from other octets.
pub fn read_fixed(s: &[u8], at: Cursor, field: Field) -> Read<()>
    ensures { answer_of result ≡ fixed_at (fixed_part (field_of field)) s.now at.at }
{
    let octets = octets_of(field);
    let (_, next) = at.span(s, octets.len())?;
    if &s[at.at..next.at] == octets {
        return Ok(((), next));
    }
    Err(WireError::NotWritten(at.at))
}

pub fn fixed_len(field: Field) -> usize
    ensures { result ≡ length (fixed_part (field_of field)) }
{
    octets_of(field).len()
}

pub fn write_fixed(out: &mut [u8], at: usize, field: Field) -> Written
    ensures { outcome (answer_of_written result) out.new ≡ write_octets (fixed_part (field_of field)) at out.old }
{
    write_octets(out, at, octets_of(field))
}
