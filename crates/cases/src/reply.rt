// The reply readers.
use crate::answer::{NOTHING, Told, Values, of_read};
use crate::operation::ReplyReader;
use crate::reading::{of_span, of_uint};
use replies::{MethodId, TuneParams};
use types::Cursor;

fn of_method_id(v: MethodId) -> Values {
    Values::numbers(v.class as u64, v.method as u64)
}

fn of_tune_params(v: TuneParams) -> Values {
    let numbers = [
        Some(v.channel_max as u64),
        Some(v.frame_max as u64),
        Some(v.heartbeat as u64),
    ];
    Values { numbers, ..NOTHING }
}

pub fn read(reader: ReplyReader, s: &[u8], at: usize) -> Told {
    let start = Cursor { at };
    match reader {
        ReplyReader::MethodId => of_read(replies::method_id(s, start), of_method_id),
        ReplyReader::ConnectionTuneParams => {
            of_read(replies::connection_tune_params(s, start), of_tune_params)
        }
        ReplyReader::QueueDeclareOkName => of_span(replies::queue_declare_ok_name(s, start)),
        ReplyReader::BasicConsumeOkTag => of_span(replies::basic_consume_ok_tag(s, start)),
        ReplyReader::QueueOpOkMessageCount => of_uint(replies::queue_op_ok_message_count(s, start)),
        ReplyReader::BasicGetOkDeliveryTag => of_uint(replies::basic_get_ok_delivery_tag(s, start)),
        ReplyReader::BasicDeliverDeliveryTag => {
            of_uint(replies::basic_deliver_delivery_tag(s, start))
        }
        ReplyReader::BasicAckDeliveryTag => of_uint(replies::basic_ack_delivery_tag(s, start)),
        ReplyReader::ContentHeaderBodySize => of_uint(replies::content_header_body_size(s, start)),
    }
}
