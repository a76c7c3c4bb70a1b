// The replies as flat records: numbers for the enums and the bools, with total conversions, so that they can cross to C.
#![tactic(auto)]

ghost use Rattle.std.specs.Prelude.{◌≡◌};
ghost use Rattle.refusal.specs.Refusals.{number};
ghost use Rattle.flat_kind.specs.Kinds.{kind_at};
ghost use Rattle.flat_reply.specs.Replies.{reply_at, reply_from, taken_with, flat_given, flat_taken, NumberedDone, FlatReplyDone, FlatReadDone, FlatTakeDone};

use carrier::Carrier;
use flat::FlatWritten;
use kind::CallKind;
use places::Fields;
use refusal::Refusal;
use reply::Reply;
use reply_reader::Taken;
use strings::Text;
use turns::Turn;

// A reply read: its number in the order of `reply::Reply`, from 0, its own numbers, and where its block and its string lie in the bytes. What
// the reply lacks is 0.
#[repr(C)]
#[derive(Clone, Copy)]
pub struct FlatGiven {
    pub block_start: usize,
    pub block_length: usize,
    pub text_start: usize,
    pub text_length: usize,
    pub reply: u8,
    pub carry: u8,
    pub x: u8,
    pub y: u8,
    pub a: u8,
}

// What a byte of a reply does on the parallel side: kind 0 more follow, 1 it is the last, 2 it is refused with the number `answer`, which is else 0;
// and how many bytes of the reply there are then.
#[repr(C)]
#[derive(Clone, Copy)]
pub struct FlatTaken {
    pub count: u16,
    pub kind: u8,
    pub answer: u8,
}

impl FlatTaken {
    // What a refused byte does: it is not counted.
    fn refused(count: u16, refusal: Refusal) -> FlatTaken
        ensures { result ≡ taken_with count 2 (number refusal) }
    {
        FlatTaken {
            count,
            kind: 2,
            answer: refusal.number(),
        }
    }
}

impl FlatGiven {
    // The number of a reply that is none.
    const NONE: u8 = 10;

    // What is said of the reply to a call that does not exist.
    const NO_REPLY: FlatGiven = FlatGiven {
        block_start: 0,
        block_length: 0,
        text_start: 0,
        text_length: 0,
        reply: FlatGiven::NONE,
        carry: 0,
        x: 0,
        y: 0,
        a: 0,
    };
}

// Writes a reply: see `reply_writer::write_reply`. A call that is none is answered first of all; another carrier or reply is a field that breaks its
// rule. A number that the reply does not have is not read; a carry is set where its number is not 0.
#[tactic(auto, using(crate::proofs::Replies::flat))]
pub fn write_reply(
    carrier: u8,
    call: u8,
    out_length: u8,
    reply: u8,
    carry: u8,
    x: u8,
    y: u8,
    a: u8,
    block: &[u8],
    text: &[u8],
    out: &mut [u8],
) -> FlatWritten
    ensures { FlatReplyDone carrier call (kind_at call out_length) reply (reply_at reply carry x y a) block.now text.now out.old result out.new }
{
    let kind = flat_kind::known_kind(call, out_length);
    let given = reply_from(reply, carry != 0, x, y, a);
    FlatWritten::from(write_numbered(carrier, kind, given, block, text, out))
}

// The same with the kind and the reply, or none where no call or no reply has the number. The checks come in the order of their answers.
#[tactic(auto, using(reply_writer::proofs::Laws::text_too_long))]
fn write_numbered(
    carrier: u8,
    kind: Option<CallKind>,
    reply: Option<Reply>,
    block: &[u8],
    text: &[u8],
    out: &mut [u8],
) -> Result<usize, Refusal>
    ensures { NumberedDone carrier kind reply block.now text.now out.old result out.new }
{
    let known = kind.ok_or(Refusal::NotCarried)?;
    if Text::LIMIT < text.len() {
        return Err(Refusal::TooLong);
    }
    let on = Carrier::try_from(carrier)?;
    let given = reply.ok_or(Refusal::BadField)?;
    reply_writer::write_reply(on, known, given, block, text, out)
}

// The reply of a number, with the numbers that it has.
fn reply_from(n: u8, carry: bool, x: u8, y: u8, a: u8) -> Option<Reply>
    ensures { result ≡ reply_from n carry x y a }
{
    let reply = match n {
        0 => Reply::CarryA { carry, a },
        1 => Reply::Ack(carry),
        2 => Reply::Byte(a),
        3 => Reply::CarryYX { carry, y, x },
        4 => Reply::Block,
        5 => Reply::EscapedLine,
        6 => Reply::ReadLine,
        7 => Reply::ABlock(a),
        8 => Reply::Plain,
        9 => Reply::BlockCarryA { carry, a },
        _ => return None,
    };
    Some(reply)
}

// One byte of a reply on the parallel side: see `reply_reader::take_byte`. A call that is none is refused first of all.
pub fn reply_step(
    call: u8,
    out_length: u8,
    count: u16,
    byte: u8,
    reply: &mut [u8; CallKind::REPLY],
) -> FlatTaken
    ensures { FlatTakeDone call (kind_at call out_length) count byte reply.old result reply.new }
{
    let Some(kind) = flat_kind::known_kind(call, out_length) else {
        return FlatTaken::refused(count, Refusal::NotCarried);
    };
    FlatTaken::from(reply_reader::take_byte(kind, count, byte, reply))
}

impl From<Taken> for FlatTaken {
    // The flat result of a byte of a reply.
    fn from(taken: Taken) -> FlatTaken
        ensures { result ≡ flat_taken taken }
    {
        match taken.turn {
            Ok(turn) => FlatTaken {
                count: taken.count,
                kind: if turn == Turn::More { 0 } else { 1 },
                answer: 0,
            },
            Err(refusal) => FlatTaken::refused(taken.count, refusal),
        }
    }
}

// The fields of a finished reply: see `reply::read_reply`. The reply to a call that does not exist has the number 10 and nothing else.
#[tactic(auto, using(crate::proofs::Replies::given))]
pub fn read_reply(call: u8, out_length: u8, bytes: &[u8]) -> FlatGiven
    ensures { FlatReadDone call (kind_at call out_length) bytes.now result }
{
    match flat_kind::known_kind(call, out_length) {
        Some(kind) => FlatGiven::from(reply::read_reply(kind, bytes)),
        None => FlatGiven::NO_REPLY,
    }
}

impl From<Fields<Reply>> for FlatGiven {
    // The flat record of a reply read.
    fn from(given: Fields<Reply>) -> FlatGiven
        ensures { result ≡ flat_given given }
    {
        let base = FlatGiven {
            block_start: given.block.start,
            block_length: given.block.length,
            text_start: given.text.start,
            text_length: given.text.length,
            ..FlatGiven::NO_REPLY
        };
        match given.said {
            Reply::CarryA { carry, a } => FlatGiven {
                reply: 0,
                carry: u8::from(carry),
                a,
                ..base
            },
            Reply::Ack(set) => FlatGiven {
                reply: 1,
                carry: u8::from(set),
                ..base
            },
            Reply::Byte(a) => FlatGiven {
                reply: 2,
                a,
                ..base
            },
            Reply::CarryYX { carry, y, x } => FlatGiven {
                reply: 3,
                carry: u8::from(carry),
                x,
                y,
                ..base
            },
            Reply::Block => FlatGiven { reply: 4, ..base },
            Reply::EscapedLine => FlatGiven { reply: 5, ..base },
            Reply::ReadLine => FlatGiven { reply: 6, ..base },
            Reply::ABlock(a) => FlatGiven {
                reply: 7,
                a,
                ..base
            },
            Reply::Plain => FlatGiven { reply: 8, ..base },
            Reply::BlockCarryA { carry, a } => FlatGiven {
                reply: 9,
                carry: u8::from(carry),
                a,
                ..base
            },
        }
    }
}
