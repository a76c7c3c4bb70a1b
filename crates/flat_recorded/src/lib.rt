// The reader of a recorded reply with a number for the call and a flat record for what it gives, so that it can cross to C.
#![tactic(auto)]

ghost use Rattle.std.specs.Prelude.{◌≡◌};
ghost use Rattle.flat_kind.specs.Kinds.{kind_at};
ghost use Rattle.flat_recorded.specs.Recordings.{recorded_with, flat_recorded, FlatRecordedDone};

use answers::Answer;
use kind::CallKind;
use recorded::Recorded;
use refusal::Refusal;

// What a recorded reply gives: the raw bytes used, the notes and the bytes of data; by its kind 0 the recording ran out, 5 is a reply (length), 6 an
// error (number, and the length of its text), 7 a restart, 8 a refusal (number). What is not named is 0.
#[repr(C)]
#[derive(Clone, Copy, PartialEq, Eq, Debug)]
pub struct FlatRecorded {
    pub used: usize,
    pub noted: usize,
    pub stored: usize,
    pub length: usize,
    pub kind: u32,
    pub number: u32,
}

// A recorded reply: see `recorded::read_recorded`. A number above the last call's is a call that is not carried.
pub fn read_recorded(
    call: u8,
    out_length: u8,
    raw: &[u8],
    notes: &mut [u8],
    content: &mut [u8],
    out: &mut [u8; CallKind::REPLY],
) -> FlatRecorded
    ensures { FlatRecordedDone call (kind_at call out_length) raw.now notes.old content.old out.old result notes.new content.new out.new }
{
    match flat_kind::known_kind(call, out_length) {
        Some(kind) => flat_recorded(recorded::read_recorded(kind, raw, notes, content, out)),
        None => flat_recorded(Recorded {
            answer: Answer::Refused(Refusal::NotCarried.number()),
            used: 0,
            noted: 0,
            stored: 0,
        }),
    }
}

// The flat result. The answers that are passed over end no recording.
fn flat_recorded(read: Recorded) -> FlatRecorded
    ensures { result ≡ flat_recorded read }
{
    match read.answer {
        Answer::Reply(n) => with(read, 5, 0, n),
        Answer::Error { number, length } => with(read, 6, number, length),
        Answer::Restart => with(read, 7, 0, 0),
        Answer::Refused(n) => with(read, 8, n, 0),
        _ => with(read, 0, 0, 0),
    }
}

fn with(read: Recorded, kind: u32, number: u8, length: usize) -> FlatRecorded
    ensures { result ≡ recorded_with read kind number length }
{
    FlatRecorded {
        used: read.used,
        noted: read.noted,
        stored: read.stored,
        length,
        kind,
        number: u32::from(number),
    }
}
