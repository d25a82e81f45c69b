// The fields of a layout that are present: a flag says so of each, the first field's being the highest of thirteen.
ghost use Rattle.std.specs.Prelude.{◌≡◌, map};
ghost use Rattle.method.specs.Properties.{properties, select, flags_of};
ghost use Rattle.method.specs.Layout.{field_of};
ghost use Rattle.method.specs.Present.{present_fields};

use crate::layout::{Field, property_fields};

// The flag of the first field.
pub const FIRST_FLAG: u16 = 0x1000;

// All thirteen.
const EVERY: u16 = 0x1FFF;

// Those that are still to come: of the fields left the first one's flag is always the highest.
#[derive(Drop)]
pub struct PresentFields<'a> {
    layout: &'a [Field],
    flags: u16,
}

// All fields of a command.
pub fn command_fields(layout: &[Field]) -> PresentFields
    ensures { present_fields result ≡ select (flags_of 13 8191) (map field_of layout.now) }
{
    PresentFields {
        layout,
        flags: EVERY,
    }
}

// The properties of a content header by their flags, a number below 2 ^ 13. Of a greater one the first is present.
pub fn properties_present(flags: u16) -> PresentFields<'static>
    ensures { present_fields result ≡ select (flags_of 13 flags) properties }
{
    PresentFields {
        layout: property_fields(),
        flags,
    }
}

impl<'a> Iterator for PresentFields<'a> {
    type Item = Field;

    ghost use Rattle.std.specs.Iterator.{YieldsFirstBy, item_count};
    ghost use Rattle.method.specs.Present.{present_fields};

    ghost next_gives = { YieldsFirstBy field_of present_fields };

    ghost remaining = { item_count present_fields };

    fn next(&mut self) -> Option<Field> {
        while self.flags != 0 {
            let (first, others) = self.layout.split_first()?;
            let is_present = FIRST_FLAG <= self.flags;
            self.layout = others;
            self.flags = self.flags % FIRST_FLAG * 2;
            if is_present {
                return Some(*first);
            }
        }
        None
    }
}
