// The actions that a host sends inward, what each is made of, and whether its block and its text keep their rules.
#![tactic(auto)]

ghost use Rattle.std.specs.Prelude.{◌≡◌};
ghost use Rattle.host_rules.specs.Actions.{target_sent, state_sent};
ghost use Rattle.actions.specs.Actions.{target_for};
ghost use Rattle.action_parts.specs.Parts.{sent_for, numbers_of, parts_of, parts_fit};

use actions::Target;
use fields::{Few, Middle};
use strings::Text;

// An action; the bytes of a control block and the text of an error are given beside it.
#[derive(Clone, Copy)]
pub enum Sent {
    Error(u8),
    Restart,
    EscapeState(bool),
    Event {
        y: u8,
        x: u8,
        a: u8,
    },
    Address {
        target: Target,
        b3: u8,
        b2: u8,
        b1: u8,
        b0: u8,
    },
    Block,
    End,
}

// What an action is made of: its mark, whether it has a block or a text; and its numbers, `head` before it, `tail` behind it.
#[derive(Clone, Copy)]
pub struct Parts {
    pub mark: u8,
    pub middle: Middle,
    pub head: Few<4>,
    pub tail: Few<1>,
}

// The parts of an action, whose block has the length `length`. The low bits of a mark that are ignored are 0.
#[tactic(auto, unfolding(crate::specs::Parts::parts_of))]
pub fn parts_of(action: Sent, length: u8) -> Parts
    ensures { result ≡ parts_of (sent_for action) length }
{
    match action {
        Sent::Error(number) => Parts {
            middle: Middle::Text,
            tail: Few::of([Text::ZERO]),
            ..numbers(0x00, Few::of([number]))
        },
        Sent::Restart => numbers(0x00, Few::of([0, 0])),
        Sent::EscapeState(on) => numbers(state_mark(on), Few::of([])),
        Sent::Event { y, x, a } => numbers(0x90, Few::of([y, x, a])),
        Sent::Address {
            target,
            b3,
            b2,
            b1,
            b0,
        } => numbers(target_mark(target), Few::of([b3, b2, b1, b0])),
        Sent::Block => Parts {
            middle: Middle::Block,
            ..numbers(length, Few::of([]))
        },
        Sent::End => numbers(0xB0, Few::of([])),
    }
}

// The parts of an action of numbers alone.
fn numbers(mark: u8, head: Few<4>) -> Parts
    ensures { result ≡ numbers_of mark head }
{
    Parts {
        mark,
        middle: Middle::Nothing,
        head,
        tail: Few::of([]),
    }
}

// The marks of the Escape state and of four address bytes.
fn state_mark(on: bool) -> u8
    ensures { result ≡ state_sent on }
{
    0x80 + u8::from(on)
}

fn target_mark(target: Target) -> u8
    ensures { result ≡ target_sent (target_for target) }
{
    match target {
        Target::Set => 0xC0,
        Target::Execute => 0xD0,
        Target::Load => 0xE0,
        Target::Save => 0xF0,
    }
}

// Whether the block and the text keep the rules of an action of these parts: a control block has 1 to 127 bytes, and any other action none.
#[tactic(auto, using(crate::proofs::Laws::no_text_given), unfolding(crate::specs::Parts::parts_fit))]
pub fn fits(parts: Parts, block: &[u8], text: &[u8]) -> bool
    ensures { result ≡ parts_fit parts block.now text.now }
{
    match parts.middle {
        Middle::Nothing => block.is_empty() && text.is_empty(),
        Middle::Block => !block.is_empty() && block.len() < 0x80 && text.is_empty(),
        Middle::Text => block.is_empty() && !strings::has_zero(text),
    }
}
