// The operations by their names, which are those of the port's functions.

// Each is the name of two functions, its reader and its writer. A width and a sign, as `types::Number` has the one, would be put together
// again to these eight wherever one of the functions is chosen.
#[derive(Clone, Copy)]
pub enum Number {
    U8,
    U16,
    U32,
    U64,
    I8,
    I16,
    I32,
    I64,
}

#[derive(Clone, Copy)]
pub enum Reader {
    Number(Number),
    F32,
    F64,
    ShortStr,
    LongStr,
    SkipFieldTable,
    ScanUtf8,
}

#[derive(Clone, Copy)]
pub enum ReplyReader {
    MethodId,
    ConnectionTuneParams,
    QueueDeclareOkName,
    BasicConsumeOkTag,
    QueueOpOkMessageCount,
    BasicGetOkDeliveryTag,
    BasicDeliverDeliveryTag,
    BasicAckDeliveryTag,
    ContentHeaderBodySize,
}

#[derive(Clone, Copy)]
pub enum Writer {
    Number(Number),
    PackBits,
    ShortStr,
    LongStr,
    Octets,
}

// A field table, or a lone value.
#[derive(Clone, Copy)]
pub enum TableForm {
    Table,
    Value,
}

#[derive(Clone, Copy)]
pub enum PayloadForm {
    Command,
    ContentHeader,
    Frame,
}

// What is read onto a tape.
#[derive(Clone, Copy)]
pub enum TapeReader {
    Table(TableForm),
    Payload(PayloadForm),
}

// What is written over lent octets. RelayFrame writes what a reader of frames has read.
#[derive(Clone, Copy)]
pub enum OctetWriter {
    Field(Writer),
    Encode,
    ProtocolHeader,
    Table(TableForm),
    Payload(PayloadForm),
    RelayFrame,
}

// RecordValue and RecordSeconds tell what the value of a record is.
#[derive(Clone, Copy)]
pub enum Operation {
    Read(Reader),
    Decode,
    ReadReply(ReplyReader),
    ReadTape(TapeReader),
    Walk,
    Write(OctetWriter),
    RecordValue,
    RecordSeconds,
}

fn number_of(word: &[u8]) -> Option<Number> {
    match word {
        b"u8" => Some(Number::U8),
        b"u16" => Some(Number::U16),
        b"u32" => Some(Number::U32),
        b"u64" => Some(Number::U64),
        b"i8" => Some(Number::I8),
        b"i16" => Some(Number::I16),
        b"i32" => Some(Number::I32),
        b"i64" => Some(Number::I64),
        _ => None,
    }
}

fn reader_of(word: &[u8]) -> Option<Reader> {
    match word {
        b"f32" => Some(Reader::F32),
        b"f64" => Some(Reader::F64),
        b"short_str" => Some(Reader::ShortStr),
        b"long_str" => Some(Reader::LongStr),
        b"skip_field_table" => Some(Reader::SkipFieldTable),
        b"scan_utf8" => Some(Reader::ScanUtf8),
        _ => number_of(word).map(Reader::Number),
    }
}

fn reply_reader_of(word: &[u8]) -> Option<ReplyReader> {
    match word {
        b"method_id" => Some(ReplyReader::MethodId),
        b"connection_tune_params" => Some(ReplyReader::ConnectionTuneParams),
        b"queue_declare_ok_name" => Some(ReplyReader::QueueDeclareOkName),
        b"basic_consume_ok_tag" => Some(ReplyReader::BasicConsumeOkTag),
        b"queue_op_ok_message_count" => Some(ReplyReader::QueueOpOkMessageCount),
        b"basic_get_ok_delivery_tag" => Some(ReplyReader::BasicGetOkDeliveryTag),
        b"basic_deliver_delivery_tag" => Some(ReplyReader::BasicDeliverDeliveryTag),
        b"basic_ack_delivery_tag" => Some(ReplyReader::BasicAckDeliveryTag),
        b"content_header_body_size" => Some(ReplyReader::ContentHeaderBodySize),
        _ => None,
    }
}

fn writer_of(word: &[u8]) -> Option<Writer> {
    match word {
        b"short_str" => Some(Writer::ShortStr),
        b"long_str" => Some(Writer::LongStr),
        b"octets" => Some(Writer::Octets),
        _ => number_of(word).map(Writer::Number),
    }
}

fn table_form_of(word: &[u8]) -> Option<TableForm> {
    match word {
        b"field_table" => Some(TableForm::Table),
        b"field_value" => Some(TableForm::Value),
        _ => None,
    }
}

fn payload_form_of(word: &[u8]) -> Option<PayloadForm> {
    match word {
        b"command" => Some(PayloadForm::Command),
        b"content_header" => Some(PayloadForm::ContentHeader),
        b"frame" => Some(PayloadForm::Frame),
        _ => None,
    }
}

// Behind `read_`.
fn to_read(word: &[u8]) -> Option<TapeReader> {
    table_form_of(word)
        .map(TapeReader::Table)
        .or_else(|| payload_form_of(word).map(TapeReader::Payload))
}

// Behind `write_`.
fn to_write(word: &[u8]) -> Option<OctetWriter> {
    table_form_of(word)
        .map(OctetWriter::Table)
        .or_else(|| payload_form_of(word).map(OctetWriter::Payload))
        .or_else(|| writer_of(word).map(OctetWriter::Field))
}

// Those that are named by what they read.
fn named_by_reading(word: &[u8]) -> Option<Operation> {
    reader_of(word)
        .map(Operation::Read)
        .or_else(|| reply_reader_of(word).map(Operation::ReadReply))
}

// The operation that a word names. No TryFrom: what names none has nothing else to tell.
pub fn of(word: &[u8]) -> Option<Operation> {
    if let Some(it) = word.strip_prefix(b"read_") {
        return to_read(it).map(Operation::ReadTape);
    }
    if let Some(it) = word.strip_prefix(b"write_") {
        return to_write(it).map(Operation::Write);
    }
    match word {
        b"decode" => Some(Operation::Decode),
        b"walk" => Some(Operation::Walk),
        b"pack_bits" => Some(Operation::Write(OctetWriter::Field(Writer::PackBits))),
        b"encode" => Some(Operation::Write(OctetWriter::Encode)),
        b"protocol_header" => Some(Operation::Write(OctetWriter::ProtocolHeader)),
        b"relay_frame" => Some(Operation::Write(OctetWriter::RelayFrame)),
        b"record_value" => Some(Operation::RecordValue),
        b"record_seconds" => Some(Operation::RecordSeconds),
        _ => named_by_reading(word),
    }
}
