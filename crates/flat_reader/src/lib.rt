// The request reader as a flat record: numbers for the enums and the bools, with total conversions, so that it can cross to C.
#![tactic(auto)]

ghost use Rattle.std.specs.Prelude.{◌≡◌};
ghost use Rattle.flat_reader.specs.Readers.{phase_from, reader_of, reader_from, flat_of, flat_read, flat_plain, tags_ok};

use carrier::Carrier;
use refusal::Refusal;
use request_reader::{Answer, Phase, Reader};

// A request reader with numbers for its enums: carrier 0 serial, 1 parallel; phase 0 outside a request, 1 inside, 2 stopped; an
// escape was seen where its number is not 0. A number out of range makes a reader that counts as stopped. It has eight bytes, the
// last of them padding, so that it crosses to C in one register.
#[repr(C)]
#[derive(Clone, Copy)]
pub struct FlatReader {
    pub count: u16,
    pub carrier: u8,
    pub phase: u8,
    pub escape: u8,
    pub style: u8,
    pub code: u8,
}

// What a raw byte gives: kind 0 needs more, 1 is a character (value), 2 a request (style, code, its body in the first `length` bytes of
// the lent body), 3 a refusal (value is its number). It has 16 bytes, so that it comes back in two registers.
#[repr(C)]
#[derive(Clone, Copy)]
pub struct FlatRead {
    pub reader: FlatReader,
    pub length: u32,
    pub kind: u8,
    pub value: u8,
    pub style: u8,
    pub code: u8,
}

// The flat result of a reader and an answer; `given` is the number of the escape that the caller's record had.
pub fn flat_answer(given: u8, reader: Reader, answer: Answer) -> FlatRead
    ensures { result ≡ flat_read (flat_of given reader) answer }
{
    flat_read(flattened(given, reader), answer)
}

// The flat result of an answer.
pub fn flat_read(reader: FlatReader, answer: Answer) -> FlatRead
    ensures { result ≡ flat_read reader answer }
{
    match answer {
        Answer::More => flat(reader, 0, 0),
        Answer::Character(b) => flat(reader, 1, b),
        Answer::Refused(refusal) => flat(reader, 3, refusal.number()),
        Answer::Request {
            style,
            code,
            length,
        } => FlatRead {
            length: u32::from(length),
            style,
            code,
            ..flat(reader, 2, 0)
        },
    }
}

fn flat(reader: FlatReader, kind: u8, value: u8) -> FlatRead
    ensures { result ≡ flat_plain reader kind value }
{
    FlatRead {
        reader,
        length: 0,
        kind,
        value,
        style: 0,
        code: 0,
    }
}

// Whether the numbers of the carrier and of the phase are in range.
#[tactic(auto, unfolding(crate::specs::Readers::tags_ok))]
pub fn has_tags(reader: FlatReader) -> bool
    ensures { result ≡ tags_ok reader }
{
    reader.carrier <= Carrier::LAST && phase_at(reader.phase).is_some()
}

// The reader of a flat record; a number out of range falls to the last carrier, and to a stopped phase.
pub fn unflattened(reader: FlatReader) -> Reader
    ensures { result ≡ reader_of reader }
{
    Reader {
        carrier: Carrier::at(reader.carrier),
        phase: phase_at(reader.phase).unwrap_or(Phase::Stopped),
        escape: reader.escape != 0,
        style: reader.style,
        code: reader.code,
        count: reader.count,
    }
}

impl TryFrom<FlatReader> for Reader {
    type Error = Refusal;

    // The reader of a flat record; one with a number out of range counts as stopped.
    fn try_from(flat: FlatReader) -> Result<Reader, Refusal>
        ensures { result ≡ reader_from flat }
    {
        if has_tags(flat) {
            Ok(unflattened(flat))
        } else {
            Err(Refusal::Stopped)
        }
    }
}

// The phase of a number.
fn phase_at(n: u8) -> Option<Phase>
    ensures { result ≡ phase_from n }
{
    match n {
        0 => Some(Phase::Outside),
        1 => Some(Phase::Inside),
        2 => Some(Phase::Stopped),
        _ => None,
    }
}

// The flat record of a reader; `given` is the number of the escape that the caller's record had.
fn flattened(given: u8, reader: Reader) -> FlatReader
    ensures { result ≡ flat_of given reader }
{
    FlatReader {
        count: reader.count,
        carrier: reader.carrier.number(),
        phase: reader.phase as u8,
        escape: flat::flag_number(given, reader.escape),
        style: reader.style,
        code: reader.code,
    }
}
