// The layout of every command and of the content header's properties, by document 01's letters. Loops read and write by these alone.
ghost use Rattle.std.specs.Prelude.{◌≡◌, map};
ghost use Rattle.method.specs.Commands.{commands, fields_in};
ghost use Rattle.method.specs.Properties.{properties};
ghost use Rattle.method.specs.Words.{width};
ghost use Rattle.method.specs.Layout.{field_of, layout_fields};

use crate::fixed::Fixed;
use types::Number;

// Which bits of a bit octet are arguments.
#[derive(Clone, Copy, Debug, PartialEq, Eq)]
pub enum Bits {
    Lowest,
    Second,
    Both,
}

// A field of a command or of a content header.
#[derive(Clone, Copy, Debug, PartialEq, Eq)]
pub enum Field {
    Number(Number),
    ShortStr,
    Bits(Bits),
    Login,
    Table,
    Fixed(Fixed),
}

// The document's letters. A bit octet without an argument is a fixed octet.
const OCTET: Field = Field::Number(Number::U8);

const H: Field = Field::Number(Number::U16);

const L: Field = Field::Number(Number::U32);

const Q: Field = Field::Number(Number::U64);

const S: Field = Field::ShortStr;

const S0: Field = Field::Fixed(Fixed::Zero);

const B0: Field = Field::Fixed(Fixed::Zero);

const Z: Field = Field::Fixed(Fixed::TwoZeros);

const E: Field = Field::Fixed(Fixed::FourZeros);

const LOWEST_BIT: Field = Field::Bits(Bits::Lowest);

const SECOND_BIT: Field = Field::Bits(Bits::Second);

const TWO_BITS: Field = Field::Bits(Bits::Both);

const CLIENT_PROPERTIES: Field = Field::Fixed(Fixed::ClientProperties);

const PLAIN: Field = Field::Fixed(Fixed::Plain);

const EN_US: Field = Field::Fixed(Fixed::EnUs);

const LOGIN: Field = Field::Login;

const TABLE: Field = Field::Table;

// The fields of a command that is known. Class and method come as two numbers: the reader has read one after the other, and the writer has
// them in a Call with its words. A struct of both would be made at each call, and the match would take it apart at once.
#[tactic(auto, unfolding(crate::specs::Commands::commands))]
pub fn layout_of(class: u16, method: u16) -> Option<&'static [Field]>
    ensures { layout_fields result ≡ fields_in commands class method }
{
    match (class, method) {
        (10, 11) => Some(&[CLIENT_PROPERTIES, PLAIN, LOGIN, EN_US]),
        (10, 31) => Some(&[H, L, H]),
        (10, 40) => Some(&[S, S0, B0]),
        (20, 10) => Some(&[S0]),
        (20, 20) => Some(&[LOWEST_BIT]),
        (20, 21) => Some(&[LOWEST_BIT]),
        (20, 40) => Some(&[H, S, Z, Z]),
        (20, 41) => Some(&[]),
        (40, 10) => Some(&[Z, S, S, SECOND_BIT, E]),
        (40, 20) => Some(&[Z, S, LOWEST_BIT]),
        (50, 10) => Some(&[Z, S, SECOND_BIT, E]),
        (50, 20) => Some(&[Z, S, S, S, B0, E]),
        (50, 50) => Some(&[Z, S, S, S, E]),
        (50, 30) => Some(&[Z, S, B0]),
        (50, 40) => Some(&[Z, S, B0]),
        (60, 10) => Some(&[L, H, LOWEST_BIT]),
        (60, 20) => Some(&[Z, S, S, SECOND_BIT, E]),
        (60, 30) => Some(&[S, LOWEST_BIT]),
        (60, 40) => Some(&[Z, S, S, B0]),
        (60, 70) => Some(&[Z, S, LOWEST_BIT]),
        (60, 80) => Some(&[Q, LOWEST_BIT]),
        (60, 90) => Some(&[Q, LOWEST_BIT]),
        (60, 120) => Some(&[Q, TWO_BITS]),
        (85, 10) => Some(&[LOWEST_BIT]),
        (90, 10) => Some(&[]),
        _ => None,
    }
}

// The properties of a content header, by flag, from 15 down to 3.
pub fn property_fields() -> &'static [Field]
    ensures { map field_of result.now ≡ properties }
{
    &[S, S, TABLE, OCTET, OCTET, S, S, S, S, Q, S, S, S]
}

// How many words a field's arguments take. No method, as `octets` of a number or of fixed octets is: it tells nothing of the field on the
// wire, but how its arguments are lent, and stands with the layouts for the loops that go by them.
pub fn width_of(field: Field) -> usize
    ensures { result ≡ width (field_of field) }
{
    match field {
        Field::Number(_) => 1,
        Field::ShortStr => 2,
        Field::Bits(_) => 1,
        Field::Login => 4,
        Field::Table => 1,
        Field::Fixed(_) => 0,
    }
}
