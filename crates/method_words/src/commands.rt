// From a pair and words to the command.
ghost use Rattle.std.specs.Prelude.{◌≡◌, ◌+◌, ◌≤◌, get_or};
ghost use Rattle.method_words.specs.Words.{command_with};
ghost use Rattle.method_words.specs.AnswerOf.{command_of_known};

use crate::cut::{low_bit, low_u16, low_u32};
use method::Command;
use types::Span;

fn span_at(words: [u64; 8], j: usize) -> Span
    requires { j + 2 ≤ 8 }
    ensures { result ≡ record { start = get_or words j 0; len = get_or words (j + 1) 0 } }
{
    Span::from_words([words[j], words[j + 1]])
}

// The command of a pair from the words of its arguments, in wire order (specs/Words.antt of method); none where no command has the
// pair. Numbers are cut to their width. In parts, not as a Call: its callers have the words apart from the pair, and would put them
// together for the match to take apart. Long, since it is one match with an arm for each of 25 commands.
#[tactic(auto, unfolding(method::specs::Commands::commands, method::specs::Commands::known, crate::specs::Words::command_with))]
pub fn known_command(class: u16, method: u16, words: [u64; 8]) -> Option<Command>
    ensures { command_of_known result ≡ command_with class method words }
{
    let text = span_at(words, 0);
    let after_number = span_at(words, 1);
    let second = span_at(words, 2);
    let third = span_at(words, 4);
    match (class, method) {
        (10, 11) => Some(Command::ConnectionStartOk {
            user: text,
            password: second,
        }),
        (10, 31) => Some(Command::ConnectionTuneOk {
            channel_max: low_u16(words[0]),
            frame_max: low_u32(words[1]),
            heartbeat: low_u16(words[2]),
        }),
        (10, 40) => Some(Command::ConnectionOpen { vhost: text }),
        (20, 10) => Some(Command::ChannelOpen),
        (20, 20) => Some(Command::ChannelFlow {
            active: low_bit(words[0]),
        }),
        (20, 21) => Some(Command::ChannelFlowOk {
            active: low_bit(words[0]),
        }),
        (20, 40) => Some(Command::ChannelClose {
            reply_code: low_u16(words[0]),
            reply_text: after_number,
        }),
        (20, 41) => Some(Command::ChannelCloseOk),
        (40, 10) => Some(Command::ExchangeDeclare {
            name: text,
            kind: second,
            durable: low_bit(words[4]),
        }),
        (40, 20) => Some(Command::ExchangeDelete {
            name: text,
            if_unused: low_bit(words[2]),
        }),
        (50, 10) => Some(Command::QueueDeclare {
            queue: text,
            durable: low_bit(words[2]),
        }),
        (50, 20) => Some(Command::QueueBind {
            queue: text,
            exchange: second,
            routing_key: third,
        }),
        (50, 50) => Some(Command::QueueUnbind {
            queue: text,
            exchange: second,
            routing_key: third,
        }),
        (50, 30) => Some(Command::QueuePurge { queue: text }),
        (50, 40) => Some(Command::QueueDelete { queue: text }),
        (60, 10) => Some(Command::BasicQos {
            prefetch_size: low_u32(words[0]),
            prefetch_count: low_u16(words[1]),
            global: low_bit(words[2]),
        }),
        (60, 20) => Some(Command::BasicConsume {
            queue: text,
            consumer_tag: second,
            no_ack: low_bit(words[4]),
        }),
        (60, 30) => Some(Command::BasicCancel {
            consumer_tag: text,
            no_wait: low_bit(words[2]),
        }),
        (60, 40) => Some(Command::BasicPublish {
            exchange: text,
            routing_key: second,
        }),
        (60, 70) => Some(Command::BasicGet {
            queue: text,
            no_ack: low_bit(words[2]),
        }),
        (60, 80) => Some(Command::BasicAck {
            delivery_tag: words[0],
            multiple: low_bit(words[1]),
        }),
        (60, 90) => Some(Command::BasicReject {
            delivery_tag: words[0],
            requeue: low_bit(words[1]),
        }),
        (60, 120) => Some(Command::BasicNack {
            delivery_tag: words[0],
            multiple: low_bit(words[1]),
            requeue: low_bit(words[1] / 2),
        }),
        (85, 10) => Some(Command::ConfirmSelect {
            no_wait: low_bit(words[0]),
        }),
        (90, 10) => Some(Command::TxSelect),
        _ => None,
    }
}
