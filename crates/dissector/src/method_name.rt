// The commands of 0-9-1, and those that RabbitMQ adds to it: name, and of those that the command reader or a reply reader takes the
// names of their arguments.
use replies::MethodId;

#[derive(Clone, Copy)]
pub(crate) struct Names {
    pub(crate) name: &'static str,
    pub(crate) arguments: &'static [&'static str],
}

fn named(name: &'static str, arguments: &'static [&'static str]) -> Option<Names> {
    Some(Names { name, arguments })
}

fn connection(method: u16) -> Option<Names> {
    match method {
        10 => named("connection.start", &[]),
        11 => named("connection.start-ok", &["user", "password"]),
        20 => named("connection.secure", &[]),
        21 => named("connection.secure-ok", &[]),
        30 => named(
            "connection.tune",
            &["channel-max", "frame-max", "heartbeat"],
        ),
        31 => named(
            "connection.tune-ok",
            &["channel-max", "frame-max", "heartbeat"],
        ),
        40 => named("connection.open", &["virtual-host"]),
        41 => named("connection.open-ok", &[]),
        50 => named("connection.close", &[]),
        51 => named("connection.close-ok", &[]),
        60 => named("connection.blocked", &[]),
        61 => named("connection.unblocked", &[]),
        70 => named("connection.update-secret", &[]),
        71 => named("connection.update-secret-ok", &[]),
        _ => None,
    }
}

fn channel(method: u16) -> Option<Names> {
    match method {
        10 => named("channel.open", &[]),
        11 => named("channel.open-ok", &[]),
        20 => named("channel.flow", &["active"]),
        21 => named("channel.flow-ok", &["active"]),
        40 => named("channel.close", &["reply-code", "reply-text"]),
        41 => named("channel.close-ok", &[]),
        _ => None,
    }
}

fn exchange(method: u16) -> Option<Names> {
    match method {
        10 => named("exchange.declare", &["exchange", "type", "durable"]),
        11 => named("exchange.declare-ok", &[]),
        20 => named("exchange.delete", &["exchange", "if-unused"]),
        21 => named("exchange.delete-ok", &[]),
        30 => named("exchange.bind", &[]),
        31 => named("exchange.bind-ok", &[]),
        40 => named("exchange.unbind", &[]),
        51 => named("exchange.unbind-ok", &[]),
        _ => None,
    }
}

fn queue(method: u16) -> Option<Names> {
    match method {
        10 => named("queue.declare", &["queue", "durable"]),
        11 => named("queue.declare-ok", &["queue"]),
        20 => named("queue.bind", &["queue", "exchange", "routing-key"]),
        21 => named("queue.bind-ok", &[]),
        30 => named("queue.purge", &["queue"]),
        31 => named("queue.purge-ok", &["message-count"]),
        40 => named("queue.delete", &["queue"]),
        41 => named("queue.delete-ok", &["message-count"]),
        50 => named("queue.unbind", &["queue", "exchange", "routing-key"]),
        51 => named("queue.unbind-ok", &[]),
        _ => None,
    }
}

fn basic(method: u16) -> Option<Names> {
    match method {
        10 => named("basic.qos", &["prefetch-size", "prefetch-count", "global"]),
        11 => named("basic.qos-ok", &[]),
        20 => named("basic.consume", &["queue", "consumer-tag", "no-ack"]),
        21 => named("basic.consume-ok", &["consumer-tag"]),
        30 => named("basic.cancel", &["consumer-tag", "no-wait"]),
        31 => named("basic.cancel-ok", &[]),
        40 => named("basic.publish", &["exchange", "routing-key"]),
        50 => named("basic.return", &[]),
        60 => named("basic.deliver", &["delivery-tag"]),
        70 => named("basic.get", &["queue", "no-ack"]),
        71 => named("basic.get-ok", &["delivery-tag"]),
        72 => named("basic.get-empty", &[]),
        80 => named("basic.ack", &["delivery-tag", "multiple"]),
        90 => named("basic.reject", &["delivery-tag", "requeue"]),
        100 => named("basic.recover-async", &[]),
        110 => named("basic.recover", &[]),
        111 => named("basic.recover-ok", &[]),
        120 => named("basic.nack", &["delivery-tag", "multiple", "requeue"]),
        _ => None,
    }
}

fn confirm(method: u16) -> Option<Names> {
    match method {
        10 => named("confirm.select", &["no-wait"]),
        11 => named("confirm.select-ok", &[]),
        _ => None,
    }
}

fn tx(method: u16) -> Option<Names> {
    match method {
        10 => named("tx.select", &[]),
        11 => named("tx.select-ok", &[]),
        20 => named("tx.commit", &[]),
        21 => named("tx.commit-ok", &[]),
        30 => named("tx.rollback", &[]),
        31 => named("tx.rollback-ok", &[]),
        _ => None,
    }
}

// The names of a command that has one.
pub(crate) fn names_of(id: MethodId) -> Option<Names> {
    match id.class {
        10 => connection(id.method),
        20 => channel(id.method),
        40 => exchange(id.method),
        50 => queue(id.method),
        60 => basic(id.method),
        85 => confirm(id.method),
        90 => tx(id.method),
        _ => None,
    }
}
