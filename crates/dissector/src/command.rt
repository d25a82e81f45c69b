// Commands: number and name, then the arguments, each with its name.
use crate::arguments::{Arguments, one, three, two};
use crate::method_name::names_of;
use method::Command;
use print::Printer;
use replies::MethodId;

// The arguments of a command, in the order of their names.
pub(crate) fn arguments_of(command: Command) -> Arguments {
    match command {
        Command::ConnectionStartOk { user, password } => two(user, password),
        Command::ConnectionTuneOk {
            channel_max,
            frame_max,
            heartbeat,
        } => three(channel_max, frame_max, heartbeat),
        Command::ConnectionOpen { vhost } => one(vhost),
        Command::ChannelFlow { active } | Command::ChannelFlowOk { active } => one(active),
        Command::ChannelClose {
            reply_code,
            reply_text,
        } => two(reply_code, reply_text),
        Command::ExchangeDeclare {
            name,
            kind,
            durable,
        } => three(name, kind, durable),
        Command::ExchangeDelete { name, if_unused } => two(name, if_unused),
        Command::ConfirmSelect { no_wait } => one(no_wait),
        Command::ChannelOpen | Command::ChannelCloseOk | Command::TxSelect => [None, None, None],
        _ => queue_or_basic(command),
    }
}

fn queue_or_basic(command: Command) -> Arguments {
    match command {
        Command::QueueDeclare { queue, durable } => two(queue, durable),
        Command::QueueBind {
            queue,
            exchange,
            routing_key,
        }
        | Command::QueueUnbind {
            queue,
            exchange,
            routing_key,
        } => three(queue, exchange, routing_key),
        Command::QueuePurge { queue } | Command::QueueDelete { queue } => one(queue),
        _ => basic(command),
    }
}

fn basic(command: Command) -> Arguments {
    match command {
        Command::BasicQos {
            prefetch_size,
            prefetch_count,
            global,
        } => three(prefetch_size, prefetch_count, global),
        Command::BasicConsume {
            queue,
            consumer_tag,
            no_ack,
        } => three(queue, consumer_tag, no_ack),
        Command::BasicCancel {
            consumer_tag,
            no_wait,
        } => two(consumer_tag, no_wait),
        Command::BasicPublish {
            exchange,
            routing_key,
        } => two(exchange, routing_key),
        Command::BasicGet { queue, no_ack } => two(queue, no_ack),
        Command::BasicAck {
            delivery_tag,
            multiple,
        } => two(delivery_tag, multiple),
        Command::BasicReject {
            delivery_tag,
            requeue,
        } => two(delivery_tag, requeue),
        Command::BasicNack {
            delivery_tag,
            multiple,
            requeue,
        } => three(delivery_tag, multiple, requeue),
        _ => [None, None, None],
    }
}

// Number and name, behind a space; of a command that has no name the number. Strings are spans of `s`, and no argument is a table.
pub(crate) fn command(printer: &mut Printer, s: &[u8], id: MethodId, arguments: Arguments) {
    write!(printer, " {}.{}", id.class, id.method);
    let Some(names) = names_of(id) else {
        return;
    };
    write!(printer, " {}", names.name);
    for (name, argument) in names.arguments.iter().zip(arguments) {
        if let Some(argument) = argument {
            write!(printer, " {name}=");
            argument.show(printer, s, &[]);
        }
    }
}
