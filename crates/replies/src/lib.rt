// The reply readers: of what a broker sends, the few fields that a client waits for. They check no ids and ignore what follows. Document 01
// names them one by one, so that some have one text: two read a short string behind the ids, three a number of 64 bits.
#![tactic(auto)]

ghost use Rattle.std.specs.Prelude.{◌≡◌};
ghost use Rattle.types.specs.AnswerOf.{answer_of};
ghost use Rattle.replies.specs.Replies.{method_id_at, skip_ids_at, tune_params_at, connection_tune_params_at, queue_declare_ok_name_at, basic_consume_ok_tag_at, queue_op_ok_message_count_at, basic_get_ok_delivery_tag_at, basic_deliver_delivery_tag_at, basic_ack_delivery_tag_at, content_header_body_size_at};
ghost use Rattle.replies.specs.AnswerOf.{answer_past};

use types::{Cursor, Read, Span, WireError};

#[derive(Clone, Copy, Debug, PartialEq, Eq)]
pub struct MethodId {
    pub class: u16,
    pub method: u16,
}

#[derive(Clone, Copy, Debug, PartialEq, Eq)]
pub struct TuneParams {
    pub channel_max: u16,
    pub frame_max: u32,
    pub heartbeat: u16,
}

pub fn method_id(s: &[u8], at: Cursor) -> Read<MethodId>
    ensures { answer_of result ≡ method_id_at s.now at.at }
{
    let (class, next) = at.u16(s)?;
    let (method, after) = next.u16(s)?;
    Ok((MethodId { class, method }, after))
}

// The position behind class and method.
fn after_ids(s: &[u8], at: Cursor) -> Result<Cursor, WireError>
    ensures { answer_past result ≡ skip_ids_at s.now at.at }
{
    let (_, next) = method_id(s, at)?;
    Ok(next)
}

// The three arguments of connection.tune.
fn tune_params(s: &[u8], at: Cursor) -> Read<TuneParams>
    ensures { answer_of result ≡ tune_params_at s.now at.at }
{
    let (channel_max, next) = at.u16(s)?;
    let (frame_max, then) = next.u32(s)?;
    let (heartbeat, after) = then.u16(s)?;
    Ok((
        TuneParams {
            channel_max,
            frame_max,
            heartbeat,
        },
        after,
    ))
}

pub fn connection_tune_params(s: &[u8], at: Cursor) -> Read<TuneParams>
    ensures { answer_of result ≡ connection_tune_params_at s.now at.at }
{
    tune_params(s, after_ids(s, at)?)
}

pub fn queue_declare_ok_name(s: &[u8], at: Cursor) -> Read<Span>
    ensures { answer_of result ≡ queue_declare_ok_name_at s.now at.at }
{
    // The two counts behind the name need not be there.
    after_ids(s, at)?.short_str(s)
}

pub fn basic_consume_ok_tag(s: &[u8], at: Cursor) -> Read<Span>
    ensures { answer_of result ≡ basic_consume_ok_tag_at s.now at.at }
{
    // Nothing stands behind the tag, and nothing is looked at there.
    after_ids(s, at)?.short_str(s)
}

// Of queue.purge-ok and of queue.delete-ok.
pub fn queue_op_ok_message_count(s: &[u8], at: Cursor) -> Read<u32>
    ensures { answer_of result ≡ queue_op_ok_message_count_at s.now at.at }
{
    after_ids(s, at)?.u32(s)
}

pub fn basic_get_ok_delivery_tag(s: &[u8], at: Cursor) -> Read<u64>
    ensures { answer_of result ≡ basic_get_ok_delivery_tag_at s.now at.at }
{
    // The redelivered bit and what is behind it need not be there.
    after_ids(s, at)?.u64(s)
}

// Behind the consumer tag, which must be a short string.
pub fn basic_deliver_delivery_tag(s: &[u8], at: Cursor) -> Read<u64>
    ensures { answer_of result ≡ basic_deliver_delivery_tag_at s.now at.at }
{
    let (_consumer_tag, next) = after_ids(s, at)?.short_str(s)?;
    next.u64(s)
}

pub fn basic_ack_delivery_tag(s: &[u8], at: Cursor) -> Read<u64>
    ensures { answer_of result ≡ basic_ack_delivery_tag_at s.now at.at }
{
    // The bit behind the tag need not be there.
    after_ids(s, at)?.u64(s)
}

// The flags behind the size need not be there.
pub fn content_header_body_size(s: &[u8], at: Cursor) -> Read<u64>
    ensures { answer_of result ≡ content_header_body_size_at s.now at.at }
{
    // Class and weight stand where class and method do.
    after_ids(s, at)?.u64(s)
}
