// Content headers: class, body size, and the properties that are present, in the order of their flags.
use crate::arguments::Argument;
use method::{ContentHeader, ContentProperties};
use print::Printer;

// An array, in which a property that is not present is None: nothing is ever added to it.
fn named_properties(p: ContentProperties) -> [(&'static str, Option<Argument>); 13] {
    [
        ("content-type", p.content_type.map(Argument::Text)),
        ("content-encoding", p.content_encoding.map(Argument::Text)),
        ("headers", p.headers.map(Argument::Table)),
        ("delivery-mode", p.delivery_mode.map(Argument::from)),
        ("priority", p.priority.map(Argument::from)),
        ("correlation-id", p.correlation_id.map(Argument::Text)),
        ("reply-to", p.reply_to.map(Argument::Text)),
        ("expiration", p.expiration.map(Argument::Text)),
        ("message-id", p.message_id.map(Argument::Text)),
        ("timestamp", p.timestamp.map(Argument::Moment)),
        ("type", p.type_.map(Argument::Text)),
        ("user-id", p.user_id.map(Argument::Text)),
        ("app-id", p.app_id.map(Argument::Text)),
    ]
}

// Strings are spans of `s`, and the records of the headers are the first of the tape.
pub(crate) fn header(printer: &mut Printer, s: &[u8], tape: &[u64], h: ContentHeader) {
    write!(printer, " class={} size={}", h.class, h.body_size);
    for (name, value) in named_properties(h.properties) {
        if let Some(value) = value {
            write!(printer, " {name}=");
            value.show(printer, s, tape);
        }
    }
}
