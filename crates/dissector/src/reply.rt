// Replies of a broker, which the command reader does not take: the few values that the reply readers take of them, by the names that
// method_name.rt has.
use crate::arguments::{Argument, Arguments, one, three};
use replies::MethodId;
use types::{Cursor, Read};

fn only<A: Into<Argument> + Drop>(answer: Read<A>) -> Option<Arguments> {
    let (value, _) = answer.ok()?;
    Some(one(value))
}

// None of a command that is no reply, nor of a reply that is refused.
pub(crate) fn values_in(s: &[u8], at: Cursor, id: MethodId) -> Option<Arguments> {
    match (id.class, id.method) {
        (10, 30) => {
            let (p, _) = replies::connection_tune_params(s, at).ok()?;
            Some(three(p.channel_max, p.frame_max, p.heartbeat))
        }
        (50, 11) => only(replies::queue_declare_ok_name(s, at)),
        (50, 31 | 41) => only(replies::queue_op_ok_message_count(s, at)),
        (60, 21) => only(replies::basic_consume_ok_tag(s, at)),
        (60, 60) => only(replies::basic_deliver_delivery_tag(s, at)),
        (60, 71) => only(replies::basic_get_ok_delivery_tag(s, at)),
        _ => None,
    }
}
