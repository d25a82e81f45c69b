// Commands and content headers: the types that readers and writers share. A string is a span of a lent pool of octets, which is
// the input when reading.
#![tactic(auto)]

pub mod fixed;
pub mod layout;
pub mod present;

use types::Span;

#[derive(Clone, Copy, Debug, PartialEq, Eq)]
pub enum Command {
    ConnectionStartOk {
        user: Span,
        password: Span,
    },
    ConnectionTuneOk {
        channel_max: u16,
        frame_max: u32,
        heartbeat: u16,
    },
    ConnectionOpen {
        vhost: Span,
    },
    ChannelOpen,
    ChannelFlow {
        active: bool,
    },
    ChannelFlowOk {
        active: bool,
    },
    ChannelClose {
        reply_code: u16,
        reply_text: Span,
    },
    ChannelCloseOk,
    ExchangeDeclare {
        name: Span,
        kind: Span,
        durable: bool,
    },
    ExchangeDelete {
        name: Span,
        if_unused: bool,
    },
    QueueDeclare {
        queue: Span,
        durable: bool,
    },
    QueueBind {
        queue: Span,
        exchange: Span,
        routing_key: Span,
    },
    QueueUnbind {
        queue: Span,
        exchange: Span,
        routing_key: Span,
    },
    QueuePurge {
        queue: Span,
    },
    QueueDelete {
        queue: Span,
    },
    BasicQos {
        prefetch_size: u32,
        prefetch_count: u16,
        global: bool,
    },
    BasicConsume {
        queue: Span,
        consumer_tag: Span,
        no_ack: bool,
    },
    BasicCancel {
        consumer_tag: Span,
        no_wait: bool,
    },
    BasicPublish {
        exchange: Span,
        routing_key: Span,
    },
    BasicGet {
        queue: Span,
        no_ack: bool,
    },
    BasicAck {
        delivery_tag: u64,
        multiple: bool,
    },
    BasicReject {
        delivery_tag: u64,
        requeue: bool,
    },
    BasicNack {
        delivery_tag: u64,
        multiple: bool,
        requeue: bool,
    },
    ConfirmSelect {
        no_wait: bool,
    },
    TxSelect,
}

// The headers are told by the number of their tape records.
#[derive(Clone, Copy, Debug, PartialEq, Eq)]
pub struct ContentProperties {
    pub content_type: Option<Span>,
    pub content_encoding: Option<Span>,
    pub headers: Option<usize>,
    pub delivery_mode: Option<u8>,
    pub priority: Option<u8>,
    pub correlation_id: Option<Span>,
    pub reply_to: Option<Span>,
    pub expiration: Option<Span>,
    pub message_id: Option<Span>,
    pub timestamp: Option<u64>,
    pub type_: Option<Span>,
    pub user_id: Option<Span>,
    pub app_id: Option<Span>,
}

#[derive(Clone, Copy, Debug, PartialEq, Eq)]
pub struct ContentHeader {
    pub class: u16,
    pub body_size: u64,
    pub properties: ContentProperties,
}
