// The writers of commands, content headers and frames: from the fields of a case to words, from these to the declared types.
use crate::fields;
use crate::fields::Words;
use cases::answer;
use cases::answer::{NoAnswer, Told};
use cases::operation::PayloadForm;
use frame::{FrameType, Payload};
use frame_writer::write::write_frame;
use method_writer::commands::write_command;
use method_writer::headers::write_content_header;
use payload_words::payload_from;
use table_cases::case::{Case, octet_of, u16_of};
use writers::Written;

// A payload, and the channel of the frame around it, if there is one.
#[derive(Clone, Copy)]
struct Given {
    channel: Option<u16>,
    words: Words,
}

fn write_payload(payload: Payload, case: Case, lent: &mut [u8]) -> Written {
    match payload {
        Payload::Command(c) => write_command(lent, case.at, c, case.pool, case.records),
        Payload::Header(h) => write_content_header(lent, case.at, h, case.pool, case.records),
        _ => Ok(case.at),
    }
}

fn write_given(given: Given, case: Case, lent: &mut [u8]) -> Told {
    let payload = payload_from(given.words)?;
    answer::of_written(match given.channel {
        Some(channel) => write_frame(lent, case.at, channel, payload, case.pool, case.records),
        None => write_payload(payload, case, lent),
    })
}

// Of a frame, channel and type stand before its payload.
fn given_by(form: PayloadForm, case: Case) -> Option<Given> {
    let (channel, frame_type, fields) = match form {
        PayloadForm::Command => (None, FrameType::Method, case.fields),
        PayloadForm::ContentHeader => (None, FrameType::Header, case.fields),
        PayloadForm::Frame => {
            let channel = u16_of(case.field(0))?;
            let frame_type = FrameType::from_u8(octet_of(case.field(1))?)?;
            (Some(channel), frame_type, case.fields.get(2..)?)
        }
    };
    let words = fields::payload_words(frame_type, case, fields)?;
    Some(Given { channel, words })
}

pub fn write(form: PayloadForm, case: Case, lent: &mut [u8]) -> Told {
    let given = given_by(form, case).ok_or(NoAnswer::NoCase)?;
    write_given(given, case, lent)
}
