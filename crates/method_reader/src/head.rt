// What a content header has before its properties.
ghost use Rattle.std.specs.Prelude.{◌<◌};

use crate::HeaderRead;

// Class, body size, and a bit for each property that is present, the first one highest of thirteen.
#[derive(Clone, Copy)]
pub(crate) struct Head {
    pub class: u16,
    pub body_size: u64,
    pub present: u16,
    ghost thirteen: { present < 8192 },
}

impl Head {
    ghost use Rattle.std.specs.Prelude.{◌≡◌};

    pub(crate) fn with_records(self, records: usize) -> HeaderRead
        ensures { result ≡ record { class = self.class; body_size = self.body_size; present = self.present; records = records } }
    {
        HeaderRead {
            class: self.class,
            body_size: self.body_size,
            present: self.present,
            records,
        }
    }
}
