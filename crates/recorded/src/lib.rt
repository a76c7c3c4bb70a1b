// The reader of a whole recorded reply, the raw bytes that came behind one call.
#![tactic(auto)]

ghost use Rattle.std.specs.Prelude.{◌≤◌, ◌<◌, ◌≡◌, ◌∷◌, length, take, drop};
ghost use Rattle.escape.specs.Put.{over};
ghost use Rattle.serial_rules.specs.Reply.{shape_of, longest};
ghost use Rattle.kind.specs.Kinds.{kind_for};
ghost use Rattle.action_bytes.specs.Parts.{outcome_of};
ghost use Rattle.recorded.specs.Promise.{bytes_of, ReadDone};
ghost use Rattle.recorded.specs.Parts.{ended_at, nothing_read, is_short, PassDone, AllDone};

use answers::Answer;
use escape::Unit;
use kind::CallKind;
use link::{Begun, Link};
use notes::Log;
use refusal::Refusal;
use turns::Turn;

// What is read of a recording: how it ended, need-more where it ran out; how many raw bytes were used; how many notes and bytes of data it gives.
#[derive(Clone, Copy, PartialEq, Eq, Debug)]
pub struct Recorded {
    pub answer: Answer,
    pub used: usize,
    pub noted: usize,
    pub stored: usize,
}

#[derive(Clone, Copy)]
struct Ended {
    answer: Answer,
    at: usize,
    log: Log,
}

// A recorded reply to a call of a kind: what `link_loop::run` gives from a fresh link with the call begun, up to where the call ends, a byte is refused
// or the recording runs out. Its notes and data are written into the lent bytes, and the reply, or the number and text of an error, into `out`. Where
// the lent bytes are too short for the notes or the data the answer is 8, and nothing is used or touched.
pub fn read_recorded(
    kind: CallKind,
    raw: &[u8],
    notes: &mut [u8],
    content: &mut [u8],
    out: &mut [u8; CallKind::REPLY],
) -> Recorded
    ensures { ReadDone kind raw.now notes.old content.old out.old result notes.new content.new out.new }
{
    let started = Link::new().begin(kind);
    match started.answer {
        Ok(begun) => match begun {
            Begun::Waits => read_waiting(kind, raw, notes, content, out),
            Begun::Complete => nothing_read(Answer::Reply(0)),
        },
        Err(refusal) => nothing_read(Answer::Refused(refusal.number())),
    }
}

// The call ended before the first byte.
fn nothing_read(answer: Answer) -> Recorded
    ensures { result ≡ nothing_read answer }
{
    Recorded {
        answer,
        used: 0,
        noted: 0,
        stored: 0,
    }
}

// The call waits: the recording is read once to count what it gives, and once more to write it.
fn read_waiting(
    kind: CallKind,
    raw: &[u8],
    notes: &mut [u8],
    content: &mut [u8],
    out: &mut [u8; CallKind::REPLY],
) -> Recorded
    requires { 0 < longest (shape_of (kind_for kind)) }
    ensures { ReadDone kind raw.now notes.old content.old out.old result notes.new content.new out.new }
{
    let mut reply = [0u8; CallKind::REPLY];
    let mut own = [0u8; Link::OWN];
    let mut no_notes = [0u8; 1];
    let mut no_content = [0u8; 1];
    let counted = read_whole(
        kind,
        raw,
        &mut reply,
        &mut own,
        &mut no_notes,
        &mut no_content,
    );
    let needed = counted.log;
    if is_short(needed, notes.len(), content.len()) {
        return Recorded {
            answer: Answer::Refused(Refusal::NoRoom.number()),
            used: 0,
            noted: needed.noted,
            stored: needed.stored,
        };
    }
    let read = read_whole(kind, raw, &mut reply, &mut own, notes, content);
    settle(read.answer, &reply, &own, out);
    Recorded {
        answer: read.answer,
        used: read.at,
        noted: read.log.noted,
        stored: read.log.stored,
    }
}

// Whether lent bytes are too short for what was counted.
fn is_short(log: Log, notes: usize, content: usize) -> bool
    ensures { result ≡ is_short log notes content }
{
    notes / Log::NOTE < log.noted || content < log.stored
}

// The reply's bytes, or an error's number and text, into `out`.
fn settle(
    answer: Answer,
    reply: &[u8; CallKind::REPLY],
    own: &[u8; Link::OWN],
    out: &mut [u8; CallKind::REPLY],
)
    ensures { out.new ≡ over (bytes_of (outcome_of answer reply.now own.now)) out.old }
{
    match answer {
        Answer::Reply(n) => put_first(reply, n, out),
        Answer::Error { number, length } => put_error(number, length, own, out),
        _ => {}
    }
}

// An error's number, and the text of so many bytes that stands behind the first of its own.
fn put_error(number: u8, n: usize, own: &[u8; Link::OWN], out: &mut [u8; CallKind::REPLY])
    ensures { out.new ≡ over (number ∷ take n (drop 1 own.now)) out.old }
{
    out[0] = number;
    put_first(&own[1..], n, &mut out[1..]);
}

// Copies the first n bytes, or all where there are fewer.
fn put_first(bytes: &[u8], n: usize, out: &mut [u8])
    requires { length bytes.now ≤ length out.old }
    ensures { out.new ≡ over (take n bytes.now) out.old }
{
    for i in 0..n.min(bytes.len()) {
        out[i] = bytes[i];
    }
}

// The reply from its first byte on.
fn read_whole(
    kind: CallKind,
    raw: &[u8],
    reply: &mut [u8; CallKind::REPLY],
    own: &mut [u8; Link::OWN],
    notes: &mut [u8],
    content: &mut [u8],
) -> Ended
    requires { 0 < longest (shape_of (kind_for kind)) }
    ensures { AllDone raw.now kind notes.old content.old result reply.new own.new notes.new content.new }
{
    let shape = kind.shape();
    let last = shape.longest() - 1;
    let mut log = Log::new();
    let mut i: usize = 0;
    let mut got: usize = 0;
    loop {
        let unit = escape::unit_at(raw, i);
        match unit {
            Unit::Gone => {
                return stopped_at(Answer::More, raw.len(), log);
            }
            Unit::Data(b, next) => {
                let turn = match shape.turn(got, b) {
                    Ok(turn) => turn,
                    Err(refusal) => {
                        return stopped_at(Answer::Refused(refusal.number()), next, log);
                    }
                };
                reply[got] = b;
                got += 1;
                match turn {
                    Turn::Done => {
                        return stopped_at(Answer::Reply(got), next, log);
                    }
                    Turn::More => {
                        let n = pass(&raw[next..], got, last, reply);
                        got += n;
                        i = next + n;
                    }
                }
            }
            Unit::Mark(m, next) => {
                let w = transfers::read_action(raw, next, m, log, own, notes, content);
                match w.end {
                    Some(answer) => {
                        return stopped_at(answer, w.at, w.log);
                    }
                    None => {
                        i = w.at;
                        log = w.log;
                    }
                }
            }
        }
    }
}

fn stopped_at(answer: Answer, at: usize, log: Log) -> Ended
    ensures { result ≡ ended_at answer at log }
{
    Ended { answer, at, log }
}

// Plain raw bytes in the middle of the reply, before its last byte: each would need more, and they are stored at once. Returns how many.
fn pass(raw: &[u8], got: usize, last: usize, reply: &mut [u8]) -> usize
    requires { (got ≤ last) × (last ≤ length reply.old) }
    ensures { PassDone got last raw.now reply.old result reply.new }
{
    turns::copy_plain(raw, &mut reply[got..last])
}
