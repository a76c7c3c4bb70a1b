// What each reply is made of, and whether it fits the kind of the call that waits.
#![tactic(auto)]

ghost use Rattle.std.specs.Prelude.{◌≡◌};
ghost use Rattle.serial_rules.specs.Reply.{carry_byte, ack_byte};
ghost use Rattle.kind.specs.Kinds.{kind_for};
ghost use Rattle.reply.specs.Promise.{reply_for};
ghost use Rattle.reply_parts.specs.Parts.{numbers_of, parts_ok, parts_of};

use fields::{Few, Middle};
use kind::{CallKind, Form};
use reply::Reply;
use strings::Text;

// What is sent where a line was escaped, and as an acknowledgement without a meaning.
const ESCAPED: u8 = 0xFF;

const PLAIN: u8 = 0x7F;

// What a reply is made of: its form; whether it has a block or a line; and its numbers, `head` before it, `tail` behind it.
#[derive(Clone, Copy)]
pub struct Parts {
    pub form: Form,
    pub middle: Middle,
    pub head: Few<3>,
    pub tail: Few<2>,
}

// The parts of a reply.
#[tactic(auto, unfolding(crate::specs::Parts::parts_of))]
pub fn parts_of(reply: Reply) -> Parts
    ensures { result ≡ parts_of (reply_for reply) }
{
    match reply {
        Reply::CarryA { carry, a } => numbers(Form::CarryA, Few::of([carry_byte(carry), a])),
        Reply::Ack(set) => numbers(Form::Ack, Few::of([ack_byte(set)])),
        Reply::Byte(x) => numbers(Form::Byte, Few::of([x])),
        Reply::CarryYX { carry, y, x } => {
            numbers(Form::CarryYX, Few::of([carry_byte(carry), y, x]))
        }
        Reply::Block => Parts {
            middle: Middle::Block,
            ..numbers(Form::Block, Few::of([]))
        },
        Reply::EscapedLine => numbers(Form::Line, Few::of([ESCAPED])),
        Reply::ReadLine => Parts {
            middle: Middle::Text,
            tail: Few::of([Text::RETURN]),
            ..numbers(Form::Line, Few::of([PLAIN]))
        },
        Reply::ABlock(a) => Parts {
            middle: Middle::Block,
            ..numbers(Form::ABlock, Few::of([a]))
        },
        Reply::Plain => numbers(Form::Plain, Few::of([PLAIN])),
        Reply::BlockCarryA { carry, a } => Parts {
            middle: Middle::Block,
            tail: Few::of([carry_byte(carry), a]),
            ..numbers(Form::BlockCarryA, Few::of([]))
        },
    }
}

// The parts of a reply of numbers alone.
fn numbers(form: Form, head: Few<3>) -> Parts
    ensures { result ≡ numbers_of form head }
{
    Parts {
        form,
        middle: Middle::Nothing,
        head,
        tail: Few::of([]),
    }
}

// Whether a reply of these parts, with its block and its string, fits the kind.
#[tactic(auto, using(crate::proofs::Laws::fitting), unfolding(crate::specs::Parts::parts_ok))]
pub fn fits(kind: CallKind, parts: Parts, block: &[u8], text: &[u8]) -> bool
    ensures { result ≡ parts_ok (kind_for kind) parts block.now text.now }
{
    if parts.form != kind.form() || block.len() != kind.block_length() {
        return false;
    }
    if parts.middle == Middle::Text {
        return !strings::has_return(text);
    }
    text.is_empty()
}

// Cy and ack as they are sent.
fn carry_byte(carry: bool) -> u8
    ensures { result ≡ carry_byte carry }
{
    u8::from(carry) * 0x80
}

fn ack_byte(set: bool) -> u8
    ensures { result ≡ ack_byte set }
{
    0x7F + u8::from(set)
}
