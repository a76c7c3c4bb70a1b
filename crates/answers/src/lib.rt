// What a link tells of a raw byte, and what an action tells when it has all its bytes.
#![tactic(auto)]

ghost use Rattle.std.specs.Prelude.{◌≡◌};
ghost use Rattle.answers.specs.Reports.{ends_of, failure_for, told_by};

use actions::{Action, Target};

// What a raw byte gives: more is needed; a character; a finished reply, the first bytes of the lent reply; the Escape state; an event; an
// address and what it is for, high byte first; a control block, the first bytes of the other lent bytes; a byte of load data; the end of a
// load or save; an error, whose text stands in the other lent bytes from the second on; a restart; or a refusal by document 01's number.
#[derive(Clone, Copy, PartialEq, Eq, Debug)]
pub enum Answer {
    More,
    Character(u8),
    Reply(usize),
    EscapeState(bool),
    Event {
        y: u8,
        x: u8,
        a: u8,
    },
    Address {
        target: Target,
        b3: u8,
        b2: u8,
        b1: u8,
        b0: u8,
    },
    Block(usize),
    Loaded(u8),
    Ended {
        save: bool,
    },
    Error {
        number: u8,
        length: usize,
    },
    Restart,
    Refused(u8),
}

impl Answer {
    // Whether it ends a reading of many bytes: a finished reply, an error or restart, a refusal.
    #[tactic(auto, unfolding(serial_rules::specs::Record::passes))]
    pub fn ends(self) -> bool
        ensures { result ≡ ends_of self }
    {
        matches!(
            self,
            Answer::Reply(_) | Answer::Error { .. } | Answer::Restart | Answer::Refused(_)
        )
    }
}

// What an action with all its bytes tells: `held` of them and the last one are the first of the bytes lent for its own.
pub fn told_by(action: Action, held: u16, own: &[u8]) -> Answer
    ensures { result ≡ told_by action held own.now }
{
    match action {
        Action::Error => failure(places::byte_at(own, 0), usize::from(held).saturating_sub(1)),
        Action::Event => Answer::Event {
            y: places::byte_at(own, 0),
            x: places::byte_at(own, 1),
            a: places::byte_at(own, 2),
        },
        Action::Address(target) => Answer::Address {
            target,
            b3: places::byte_at(own, 0),
            b2: places::byte_at(own, 1),
            b1: places::byte_at(own, 2),
            b0: places::byte_at(own, 3),
        },
        Action::Block(_) => Answer::Block(usize::from(held) + 1),
    }
}

// Error 0 with an empty text is a restart.
fn failure(number: u8, length: usize) -> Answer
    ensures { result ≡ failure_for number length }
{
    match (number, length) {
        (0, 0) => Answer::Restart,
        _ => Answer::Error { number, length },
    }
}
