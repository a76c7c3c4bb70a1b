// What is done with a link, over its flat record: a call begun, one raw byte, raw bytes in a loop, each with a flat result, so that it can cross to C.
#![tactic(auto)]

ghost use Rattle.std.specs.Prelude.{◌<◌, ◌≡◌, true};
ghost use Rattle.kind.specs.Kinds.{reply_lent};
ghost use Rattle.link.specs.View.{begun_of};
ghost use Rattle.flat_link.specs.Links.{told_with, flat_told, flat_begun, flat_started, FlatBeginDone, FlatStepDone};
ghost use Rattle.flat_link.specs.Runs.{flat_ran, flat_unknown, ran_with, FlatRunDone};
ghost use Rattle.flat_link.specs.Field.{ReplyByte, turn_in, placed_next, placed_idle};
ghost use Rattle.serial_rules.specs.Body.{refused};
ghost use Rattle.turns.specs.Turns.{turn_of};

use answers::Answer;
use escape::Piece;
use kind::CallKind;
use link::{Begun, Link, Started};
use link_loop::Ran;
use link_record::FlatLink;
use refusal::Refusal;
use turns::Turn;

// What a raw byte gives: kind 0 needs more; 1 is a character (first); 2 the Escape state (first, 0 or 1); 3 an event (Y, X, A); 4 an address
// (first to fourth, high byte first); 5 a finished reply (length); 6 an error (first is its number, length that of its text, which stands in the
// other lent bytes from the second on); 7 a restart; 8 a refusal (first is its number); 9 a control block (length, its bytes stand in the other lent
// bytes); 10 execute, 11 a load, 12 a save (first to fourth, as of an address); 13 load data (first); 14 the end of a load (first is 0) or save (1).
// What is not named is 0. It is three words without padding, so that it can be copied word by word.
#[repr(C)]
#[derive(Clone, Copy, PartialEq, Eq, Debug)]
pub struct FlatTold {
    pub link: FlatLink,
    pub length: usize,
    pub kind: u32,
    pub first: u8,
    pub second: u8,
    pub third: u8,
    pub fourth: u8,
}

// What a begun call gives: kind 0 waits, 1 is complete, 2 is refused with the number `answer`, which is else 0.
#[repr(C)]
#[derive(Clone, Copy, PartialEq, Eq, Debug)]
pub struct FlatBegun {
    pub link: FlatLink,
    pub kind: u8,
    pub answer: u8,
}

// What the loop over raw bytes gives: where it ended, how many of them it used, how many notes it wrote, and how many bytes of data.
#[repr(C)]
#[derive(Clone, Copy, PartialEq, Eq, Debug)]
pub struct FlatRan {
    pub told: FlatTold,
    pub used: usize,
    pub noted: usize,
    pub stored: usize,
}

// Begins a call: see `link::Link::begin`. A number above the last call's is a call that is not carried: see `link::Link::begin_none`.
pub fn begin(link: FlatLink, call: u8, out_length: u8) -> FlatBegun
    ensures { FlatBeginDone link call out_length result }
{
    let Some(at) = link.link() else {
        return flat_begun(link, Err(Refusal::Stopped));
    };
    match flat_kind::known_kind(call, out_length) {
        Some(kind) => flat_started(link, at.begin(kind)),
        None => flat_started(link, at.begin_none()),
    }
}

// One raw byte: see `link_step::step`.
pub fn step(
    link: FlatLink,
    raw: u8,
    reply: &mut [u8; CallKind::REPLY],
    own: &mut [u8; Link::OWN],
) -> FlatTold
    ensures { FlatStepDone link reply.old own.old raw result reply.new own.new }
{
    if is_reply_byte(link, raw) {
        return step_reply(link, raw, reply, own);
    }
    step_unflattened(link, raw, reply, own)
}

// A byte of the reply is stored on the record as it is, unless it is refused.
fn step_reply(
    link: FlatLink,
    raw: u8,
    reply: &mut [u8; CallKind::REPLY],
    own: &mut [u8; Link::OWN],
) -> FlatTold
    requires { ReplyByte link raw }
    ensures { FlatStepDone link reply.old own.old raw result reply.new own.new }
{
    let at = link.got as usize;
    match reply_turn(link, raw) {
        Ok(turn) => match turn {
            Turn::More => {
                reply[at] = raw;
                told(next_place(link), 0, 0, 0)
            }
            Turn::Done => {
                reply[at] = raw;
                told(idle(link), 5, 0, at + 1)
            }
        },
        Err(_) => step_unflattened(link, raw, reply, own),
    }
}

// Any byte, by way of the link's enums and back. It has two callers, so that the compiler leaves it apart and theirs short.
fn step_unflattened(
    link: FlatLink,
    raw: u8,
    reply: &mut [u8; CallKind::REPLY],
    own: &mut [u8; Link::OWN],
) -> FlatTold
    ensures { FlatStepDone link reply.old own.old raw result reply.new own.new }
{
    let Some(at) = link.link() else {
        return flat_told(link, Answer::Refused(Refusal::Stopped.number()));
    };
    let stepped = link_step::step(at, raw, reply, own);
    flat_told(link_record::flattened(link, stepped.link), stepped.answer)
}

// Whether a raw byte is one of the reply that a call waits for: no action is open, no escape seen.
fn is_reply_byte(link: FlatLink, raw: u8) -> bool
    ensures { result ≡ true → ReplyByte link raw }
{
    raw != Piece::ESCAPE
        && link.wait != 0
        && link.wait <= 13
        && link.flags == 0
        && link.action == 0
        && link.held == 0
}

// What the byte does to the reply; refused where the record is over its limits.
fn reply_turn(link: FlatLink, raw: u8) -> Result<Turn, Refusal>
    requires { ReplyByte link raw }
    ensures { (turn_of result ≡ turn_in link raw) × ((turn_of result ≡ refused 7 → ⊥) → link.got < reply_lent) }
{
    let at = link.got as usize;
    let shape = flat_kind::kind_at(link.wait - 1, link.out_length).shape();
    if at < shape.longest() {
        return shape.turn(at, raw);
    }
    Err(Refusal::Stopped)
}

// The record after one more byte of the reply, and after its last.
fn next_place(link: FlatLink) -> FlatLink
    requires { link.got < reply_lent }
    ensures { result ≡ placed_next link }
{
    FlatLink {
        got: link.got + 1,
        ..link
    }
}

fn idle(given: FlatLink) -> FlatLink
    ensures { result ≡ placed_idle given }
{
    FlatLink {
        out_length: given.out_length,
        ..link_record::fresh()
    }
}

// The loop over raw bytes: see `link_loop::run`.
pub fn run(
    link: FlatLink,
    raw: &[u8],
    reply: &mut [u8; CallKind::REPLY],
    own: &mut [u8; Link::OWN],
    room: &mut [u8],
    content: &mut [u8],
) -> FlatRan
    ensures { FlatRunDone link reply.old own.old raw.now room.old content.old result reply.new own.new room.new content.new }
{
    let Some(at) = link.link() else {
        return unknown(link, raw.len(), room.len(), content.len());
    };
    flat_ran(link, link_loop::run(at, raw, reply, own, room, content))
}

// The loop's flat result, beside the record given.
fn flat_ran(given: FlatLink, ran: Ran) -> FlatRan
    ensures { result ≡ flat_ran given ran }
{
    FlatRan {
        told: flat_told(link_record::flattened(given, ran.link), ran.answer),
        used: ran.used,
        noted: ran.noted,
        stored: ran.stored,
    }
}

// The loop over so many raw bytes with so much room and content, of a record whose numbers are out of range: too little of them comes first, and no
// bytes need more.
fn unknown(link: FlatLink, bytes: usize, room: usize, content: usize) -> FlatRan
    ensures { result ≡ flat_unknown link bytes room content }
{
    if link_loop::lacks_room(link.held, bytes, room, content) {
        return unnoted(
            flat_told(link, Answer::Refused(Refusal::NoRoom.number())),
            0,
        );
    }
    if bytes == 0 {
        return unnoted(flat_told(link, Answer::More), 0);
    }
    unnoted(
        flat_told(link, Answer::Refused(Refusal::Stopped.number())),
        1,
    )
}

fn unnoted(told: FlatTold, used: usize) -> FlatRan
    ensures { result ≡ ran_with told used }
{
    FlatRan {
        told,
        used,
        noted: 0,
        stored: 0,
    }
}

// The flat result of an answer.
fn flat_told(link: FlatLink, answer: Answer) -> FlatTold
    ensures { result ≡ flat_told link answer }
{
    match answer {
        Answer::More => told(link, 0, 0, 0),
        Answer::Character(b) => told(link, 1, b, 0),
        Answer::Reply(n) => told(link, 5, 0, n),
        Answer::EscapeState(on) => told(link, 2, u8::from(on), 0),
        Answer::Event { y, x, a } => FlatTold {
            second: x,
            third: a,
            ..told(link, 3, y, 0)
        },
        Answer::Address {
            target,
            b3,
            b2,
            b1,
            b0,
        } => FlatTold {
            second: b2,
            third: b1,
            fourth: b0,
            ..told(link, u32::from(notes::address_kind(target)), b3, 0)
        },
        Answer::Block(n) => told(link, 9, 0, n),
        Answer::Loaded(b) => told(link, 13, b, 0),
        Answer::Ended { save } => told(link, 14, u8::from(save), 0),
        Answer::Error { number, length } => told(link, 6, number, length),
        Answer::Restart => told(link, 7, 0, 0),
        Answer::Refused(n) => told(link, 8, n, 0),
    }
}

fn told(link: FlatLink, kind: u32, first: u8, length: usize) -> FlatTold
    ensures { result ≡ told_with link kind first length }
{
    FlatTold {
        link,
        length,
        kind,
        first,
        second: 0,
        third: 0,
        fourth: 0,
    }
}

// The flat result of a begun call: beside the record given, and with the flat record itself.
fn flat_started(given: FlatLink, started: Started) -> FlatBegun
    ensures { result ≡ flat_started given started }
{
    flat_begun(link_record::flattened(given, started.link), started.answer)
}

fn flat_begun(link: FlatLink, begun: Result<Begun, Refusal>) -> FlatBegun
    ensures { result ≡ flat_begun link (begun_of begun) }
{
    match begun {
        Ok(Begun::Waits) => FlatBegun {
            link,
            kind: 0,
            answer: 0,
        },
        Ok(Begun::Complete) => FlatBegun {
            link,
            kind: 1,
            answer: 0,
        },
        Err(refusal) => FlatBegun {
            link,
            kind: 2,
            answer: refusal.number(),
        },
    }
}
