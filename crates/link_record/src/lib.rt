// The link as a flat record: numbers for its enums and bools, with total conversions, so that it can cross to C.
#![tactic(auto)]

ghost use Rattle.std.specs.Prelude.{◌≡◌};
ghost use Rattle.link_record.specs.Records.{wait_at, doing_at, link_of, known_link, tags_ok, fresh_link, wait_number, wait_out, doing_number, flags_number, flat_of};

use actions::{Action, Target};
use link::{Link, Wait};

// A link. `got` bytes of the reply and `held` bytes of the open action came so far. `wait` is 0 where the link is idle, else one more than the
// number of the call that waits, OSWORD with its `out_length`; `action` is 0 where none is open, 1 for an error, 2 for an event, 3 for an
// address, 4 for execute, 5 for a load, 6 for a save, 128 + n for a control block of n bytes; `flags` is a sum: 1 where an escape was seen, 2 where
// the link is stopped, and 4 times the number of the open transfers. A record with `wait` above 13, `action` from 7 to 128 or `flags` above 123
// counts as stopped. It has eight bytes, so that it crosses to C in one register.
#[repr(C)]
#[derive(Clone, Copy, PartialEq, Eq, Debug)]
pub struct FlatLink {
    pub got: u16,
    pub held: u16,
    pub wait: u8,
    pub out_length: u8,
    pub action: u8,
    pub flags: u8,
}

// A fresh link; it is also what resets a stopped one.
pub fn fresh() -> FlatLink
    ensures { result ≡ fresh_link }
{
    FlatLink {
        got: 0,
        held: 0,
        wait: 0,
        out_length: 0,
        action: 0,
        flags: 0,
    }
}

// Whether the numbers of what waits, of the action and of the flags are in range.
#[tactic(auto, using(crate::proofs::Conversions::tags_tests))]
pub fn has_tags(link: FlatLink) -> bool
    ensures { result ≡ tags_ok link }
{
    link.wait <= 13 && link.flags <= 123 && (link.action <= 6 || 129 <= link.action)
}

// The link of a flat record, and its parts by number.
pub fn unflattened(link: FlatLink) -> Link
    ensures { result ≡ link_of link }
{
    Link {
        wait: wait_at(link.wait, link.out_length),
        got: link.got,
        escape: link.flags % 2 == 1,
        doing: doing_at(link.action),
        held: link.held,
        nested: link.flags / 4,
        stopped: link.flags / 2 % 2 == 1,
    }
}

impl FlatLink {
    // The link of the record, if its numbers are in range.
    pub fn link(self) -> Option<Link>
        ensures { result ≡ known_link self }
    {
        if has_tags(self) {
            Some(unflattened(self))
        } else {
            None
        }
    }
}

fn wait_at(n: u8, out_length: u8) -> Wait
    ensures { result ≡ wait_at n out_length }
{
    if n == 0 {
        Wait::Idle
    } else {
        Wait::Waiting(flat_kind::kind_at(n - 1, out_length))
    }
}

fn doing_at(n: u8) -> Option<Action>
    ensures { result ≡ doing_at n }
{
    match n {
        0 => None,
        1 => Some(Action::Error),
        2 => Some(Action::Event),
        3 => Some(Action::Address(Target::Set)),
        4 => Some(Action::Address(Target::Execute)),
        5 => Some(Action::Address(Target::Load)),
        6 => Some(Action::Address(Target::Save)),
        _ => Some(Action::Block(n % 128)),
    }
}

// The flat record of a link, beside the record given, whose out length is kept where no OSWORD waits.
pub fn flattened(given: FlatLink, link: Link) -> FlatLink
    ensures { result ≡ flat_of given link }
{
    FlatLink {
        got: link.got,
        held: link.held,
        wait: wait_number(link.wait),
        out_length: wait_out(given.out_length, link.wait),
        action: doing_number(link.doing),
        flags: flags_number(link.escape, link.stopped, link.nested),
    }
}

fn wait_number(wait: Wait) -> u8
    ensures { result ≡ wait_number wait }
{
    match wait {
        Wait::Idle => 0,
        Wait::Waiting(kind) => flat_kind::kind_number(kind) + 1,
    }
}

fn wait_out(given: u8, wait: Wait) -> u8
    ensures { result ≡ wait_out given wait }
{
    match wait {
        Wait::Idle => given,
        Wait::Waiting(kind) => flat_kind::kind_out(given, kind),
    }
}

fn doing_number(doing: Option<Action>) -> u8
    ensures { result ≡ doing_number doing }
{
    match doing {
        None => 0,
        Some(Action::Error) => 1,
        Some(Action::Event) => 2,
        Some(Action::Address(Target::Set)) => 3,
        Some(Action::Address(Target::Execute)) => 4,
        Some(Action::Address(Target::Load)) => 5,
        Some(Action::Address(Target::Save)) => 6,
        Some(Action::Block(n)) => 128 + n % 128,
    }
}

// The flags; a number of open transfers that no link has counts as stopped.
fn flags_number(escape: bool, stopped: bool, nested: u8) -> u8
    ensures { result ≡ flags_number escape stopped nested }
{
    if 30 < nested {
        return 255;
    }
    let flags = 4 * nested + u8::from(escape);
    if stopped { flags + 2 } else { flags }
}
