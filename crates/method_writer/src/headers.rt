// The content header writer: class, weight 0, body size, a flag for each property that is present, and these. And the
// judgement alone.
ghost use Rattle.std.specs.Prelude.{◌≡◌, length};
ghost use Rattle.types.specs.Memory.{outcome};
ghost use Rattle.types.specs.AnswerOf.{or_refusal};
ghost use Rattle.writers.specs.AnswerOf.{answer_of_written};
ghost use Rattle.tables.specs.Letters.{errata};
ghost use Rattle.table_writer.specs.Sizes.{sized};
ghost use Rattle.method.specs.Pooled.{header_refusal, pooled_header_meaning, write_header};
ghost use Rattle.method.specs.Writing.{header_octets};
ghost use Rattle.method.specs.AnswerOf.{header_of};

use crate::emit::emit_fields;
use crate::sizes::size_fields;
use method::ContentHeader;
use method::present::properties_present;
use method_words::properties::header_words;
use types::WireError;
use writers::{Written, has_octets, write_u16, write_u64};

// Judges a content header as its writer does, but for the space: how many octets it has, or its refusal. Nothing is written.
pub fn judge_content_header(
    header: ContentHeader,
    pool: &[u8],
    tape: &[u64],
) -> Result<usize, WireError>
    ensures { or_refusal (λ n. n) result ≡ sized (header_refusal errata pool.now tape.now (header_of header)) (length (header_octets errata (pooled_header_meaning errata pool.now tape.now (header_of header)))) }
{
    let head = header_words(header);
    let n = size_fields(properties_present(head.present), &head.words, pool, tape)?;
    Ok(14 + n)
}

// Writes a content header whose strings are spans of the pool. Its headers are the tape; without them the tape is not read.
pub fn write_content_header(
    out: &mut [u8],
    at: usize,
    header: ContentHeader,
    pool: &[u8],
    tape: &[u64],
) -> Written
    ensures { outcome (answer_of_written result) out.new ≡ write_header errata pool.now tape.now (header_of header) at out.old }
{
    let head = header_words(header);
    let n = size_fields(properties_present(head.present), &head.words, pool, tape)?;
    if !has_octets(out, at, 14 + n) {
        return Err(WireError::NoSpace);
    }
    let weight = write_u16(out, at, head.class).unwrap();
    let size = write_u16(out, weight, 0).unwrap();
    let flags = write_u64(out, size, head.body_size).unwrap();
    let start = write_u16(out, flags, head.present * 8).unwrap();
    emit_fields(
        out,
        start,
        properties_present(head.present),
        &head.words,
        pool,
        tape,
    );
    Ok(start + n)
}
