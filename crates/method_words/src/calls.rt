// From a command to its pair and its words.
ghost use Rattle.std.specs.Prelude.{◌≡◌, ◌≤◌, length};
ghost use Rattle.method.specs.AnswerOf.{command_of};
ghost use Rattle.method_words.specs.Words.{call_of, padded};

use crate::Call;
use method::Command;

// A call by its arguments in wire order, a string as start and length. The words behind them are 0. Always inlined, since its
// arguments are counted where it is called.
#[inline(always)]
fn call(class: u16, method: u16, arguments: &[u64]) -> Call
    requires { length arguments.now ≤ 8 }
    ensures { result ≡ record { class = class; method = method; words = padded 8 arguments.now } }
{
    let mut words = [0u64; 8];
    words[..arguments.len()].copy_from_slice(arguments);
    Call {
        class,
        method,
        words,
    }
}

// The pair of a command, and its arguments, of which a string's two stand among the others: Span::to_words would give them as an array
// in the list. Long, since it is one match with an arm for each of 25 commands. No From: the clause is one equation by the definition
// of this name, which From would state by a ghost member.
#[tactic(auto, using(crate::proofs::CallLaws::one_flag, crate::proofs::CallLaws::two_flags), unfolding(method::specs::AnswerOf::command_of, method::specs::Commands::commands, method::specs::Commands::fields_of, method::specs::Words::args_words))]
pub fn call_of(command: Command) -> Call
    ensures { result ≡ call_of (command_of command) }
{
    match command {
        Command::ConnectionStartOk { user, password } => call(
            10,
            11,
            &[
                user.start as u64,
                user.len as u64,
                password.start as u64,
                password.len as u64,
            ],
        ),
        Command::ConnectionTuneOk {
            channel_max,
            frame_max,
            heartbeat,
        } => call(
            10,
            31,
            &[channel_max as u64, frame_max as u64, heartbeat as u64],
        ),
        Command::ConnectionOpen { vhost } => call(10, 40, &[vhost.start as u64, vhost.len as u64]),
        Command::ChannelOpen => call(20, 10, &[]),
        Command::ChannelFlow { active } => call(20, 20, &[active as u64]),
        Command::ChannelFlowOk { active } => call(20, 21, &[active as u64]),
        Command::ChannelClose {
            reply_code,
            reply_text,
        } => call(
            20,
            40,
            &[
                reply_code as u64,
                reply_text.start as u64,
                reply_text.len as u64,
            ],
        ),
        Command::ChannelCloseOk => call(20, 41, &[]),
        Command::ExchangeDeclare {
            name,
            kind,
            durable,
        } => call(
            40,
            10,
            &[
                name.start as u64,
                name.len as u64,
                kind.start as u64,
                kind.len as u64,
                durable as u64,
            ],
        ),
        Command::ExchangeDelete { name, if_unused } => call(
            40,
            20,
            &[name.start as u64, name.len as u64, if_unused as u64],
        ),
        Command::QueueDeclare { queue, durable } => call(
            50,
            10,
            &[queue.start as u64, queue.len as u64, durable as u64],
        ),
        Command::QueueBind {
            queue,
            exchange,
            routing_key,
        } => call(
            50,
            20,
            &[
                queue.start as u64,
                queue.len as u64,
                exchange.start as u64,
                exchange.len as u64,
                routing_key.start as u64,
                routing_key.len as u64,
            ],
        ),
        Command::QueueUnbind {
            queue,
            exchange,
            routing_key,
        } => call(
            50,
            50,
            &[
                queue.start as u64,
                queue.len as u64,
                exchange.start as u64,
                exchange.len as u64,
                routing_key.start as u64,
                routing_key.len as u64,
            ],
        ),
        Command::QueuePurge { queue } => call(50, 30, &[queue.start as u64, queue.len as u64]),
        Command::QueueDelete { queue } => call(50, 40, &[queue.start as u64, queue.len as u64]),
        Command::BasicQos {
            prefetch_size,
            prefetch_count,
            global,
        } => call(
            60,
            10,
            &[prefetch_size as u64, prefetch_count as u64, global as u64],
        ),
        Command::BasicConsume {
            queue,
            consumer_tag,
            no_ack,
        } => call(
            60,
            20,
            &[
                queue.start as u64,
                queue.len as u64,
                consumer_tag.start as u64,
                consumer_tag.len as u64,
                no_ack as u64,
            ],
        ),
        Command::BasicCancel {
            consumer_tag,
            no_wait,
        } => call(
            60,
            30,
            &[
                consumer_tag.start as u64,
                consumer_tag.len as u64,
                no_wait as u64,
            ],
        ),
        Command::BasicPublish {
            exchange,
            routing_key,
        } => call(
            60,
            40,
            &[
                exchange.start as u64,
                exchange.len as u64,
                routing_key.start as u64,
                routing_key.len as u64,
            ],
        ),
        Command::BasicGet { queue, no_ack } => call(
            60,
            70,
            &[queue.start as u64, queue.len as u64, no_ack as u64],
        ),
        Command::BasicAck {
            delivery_tag,
            multiple,
        } => call(60, 80, &[delivery_tag, multiple as u64]),
        Command::BasicReject {
            delivery_tag,
            requeue,
        } => call(60, 90, &[delivery_tag, requeue as u64]),
        Command::BasicNack {
            delivery_tag,
            multiple,
            requeue,
        } => call(
            60,
            120,
            &[delivery_tag, multiple as u64 + 2 * (requeue as u64)],
        ),
        Command::ConfirmSelect { no_wait } => call(85, 10, &[no_wait as u64]),
        Command::TxSelect => call(90, 10, &[]),
    }
}
