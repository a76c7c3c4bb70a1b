// The request reader on flat records: made, by the byte and over slices.
#![tactic(auto)]

ghost use Rattle.std.specs.Prelude.{◌<◌, ◌≡◌, true};
ghost use Rattle.request_reader.specs.View.{body_room};
ghost use Rattle.flat_reader.specs.Readers.{fresh_reader, FlatDone};
ghost use Rattle.flat_request.specs.Feeds.{FlatFeedDone};
ghost use Rattle.flat_request.specs.Field.{styled, InField, placed_next};

use carrier::Carrier;
use flat_reader::{FlatRead, FlatReader};
use request_reader::{Answer, Reader};

// What a slice of raw bytes gives: its first answer that is not need-more, or need-more where it ends first, and the bytes used.
#[repr(C)]
#[derive(Clone, Copy)]
pub struct FlatFed {
    pub read: FlatRead,
    pub used: usize,
}

// A fresh reader; it is also what resets a stopped one.
pub fn fresh(carrier: u8) -> FlatReader
    ensures { result ≡ fresh_reader carrier }
{
    FlatReader {
        count: 0,
        carrier: carrier,
        phase: 0,
        escape: 0,
        style: 0,
        code: 0,
    }
}

// One raw byte: see `request_reader::Reader::step`.
pub fn read(reader: FlatReader, raw: u8, body: &mut [u8; Reader::BODY]) -> FlatRead
    ensures { FlatDone reader body.old raw result body.new }
{
    if reader.phase == 1 {
        return read_inside(reader, raw, body);
    }
    read_by_enums(reader, raw, body)
}

// A plain byte in the middle of a field is stored on the record as it is.
fn read_inside(reader: FlatReader, raw: u8, body: &mut [u8; Reader::BODY]) -> FlatRead
    ensures { FlatDone reader body.old raw result body.new }
{
    if in_field(reader, raw, body) {
        body[reader.count as usize] = raw;
        return flat_reader::flat_read(next_place(reader), Answer::More);
    }
    read_by_enums(reader, raw, body)
}

// Any byte, by way of the reader's enums and back. It has two callers, so that the compiler leaves it apart and theirs short.
fn read_by_enums(reader: FlatReader, raw: u8, body: &mut [u8; Reader::BODY]) -> FlatRead
    ensures { FlatDone reader body.old raw result body.new }
{
    match Reader::try_from(reader) {
        Ok(at) => {
            let step = at.step(raw, body);
            flat_reader::flat_answer(reader.escape, step.reader, step.answer)
        }
        Err(refusal) => flat_reader::flat_read(reader, Answer::Refused(refusal)),
    }
}

// Whether a raw byte is a plain one in the middle of a field: inside a request, within the limits, no escape seen.
fn in_field(reader: FlatReader, raw: u8, body: &[u8; Reader::BODY]) -> bool
    ensures { result ≡ true → InField reader body.now raw }
{
    let count = reader.count as usize;
    reader.phase == 1
        && reader.escape == 0
        && has_style(reader.carrier, reader.style)
        && turns::is_plain(raw)
        && count < Reader::BODY
        && 0 < middles::ahead(reader.code, &body[..count])
}

// Whether the carrier's number is in range and the style one of its own.
fn has_style(carrier: u8, style: u8) -> bool
    ensures { result ≡ styled carrier style }
{
    match Carrier::try_from(carrier) {
        Ok(carrier) => carrier.has_style(style),
        Err(_) => false,
    }
}

// The record after one more byte of the body.
fn next_place(reader: FlatReader) -> FlatReader
    requires { reader.count < body_room }
    ensures { result ≡ placed_next reader }
{
    FlatReader {
        count: reader.count + 1,
        ..reader
    }
}

// Raw bytes up to the first answer that is not need-more: see `request_loop::feed`.
pub fn feed(reader: FlatReader, raw: &[u8], body: &mut [u8; Reader::BODY]) -> FlatFed
    ensures { FlatFeedDone reader body.old raw.now result body.new }
{
    match Reader::try_from(reader) {
        Ok(at) => {
            let fed = request_loop::feed(at, raw, body);
            FlatFed {
                read: flat_reader::flat_answer(reader.escape, fed.reader, fed.answer),
                used: fed.used,
            }
        }
        Err(_) if raw.is_empty() => FlatFed {
            read: flat_reader::flat_read(reader, Answer::More),
            used: 0,
        },
        Err(refusal) => FlatFed {
            read: flat_reader::flat_read(reader, Answer::Refused(refusal)),
            used: 1,
        },
    }
}
