// The kinds of call, and how the reply of each ends.
#![tactic(auto)]

ghost use Rattle.std.specs.Prelude.{◌≡◌};
ghost use Rattle.serial_rules.specs.Reply.{shape_of, form_of, block_in, kind_from, kind_in};
ghost use Rattle.shapes.specs.Shapes.{shape_for};
ghost use Rattle.kind.specs.Kinds.{kind_for, found_for, form_number};

use shapes::Shape;

// A call as far as its reply goes; OSWORD carries the number of bytes that come back.
#[derive(Clone, Copy, PartialEq, Eq, Debug)]
pub enum CallKind {
    Osrdch,
    Oscli,
    OsbyteLow,
    OsbyteHigh,
    Osword(u8),
    Osword0,
    Osargs,
    Osbget,
    Osbput,
    OsfindClose,
    OsfindOpen,
    Osfile,
    Osgbpb,
}

// The forms of a reply, by what it holds: carry and A; the one acknowledging byte of OSCLI; one byte; carry, Y and X; a block; a line; A and a
// block; one byte without a meaning; a block, carry and A.
#[derive(Clone, Copy, PartialEq, Eq, Debug)]
pub enum Form {
    CarryA,
    Ack,
    Byte,
    CarryYX,
    Block,
    Line,
    ABlock,
    Plain,
    BlockCarryA,
}

impl CallKind {
    // The bytes lent for a reply: the longest has so many.
    pub const REPLY: usize = 257;

    // The kind of a finished request, by its code and body, if its code is that of a call.
    #[tactic(auto, unfolding(serial_rules::specs::Reply::kind_in, serial_rules::specs::Fields::fields_of))]
    pub fn of_request(code: u8, body: &[u8]) -> Option<CallKind>
        ensures { found_for result ≡ kind_in code body.now }
    {
        match code {
            0x00 => Some(CallKind::Osrdch),
            0x02 => Some(CallKind::Oscli),
            0x04 => Some(CallKind::OsbyteLow),
            0x06 => Some(CallKind::OsbyteHigh),
            0x08 => Some(CallKind::Osword(places::last_byte(body))),
            0x0A => Some(CallKind::Osword0),
            0x0C => Some(CallKind::Osargs),
            0x0E => Some(CallKind::Osbget),
            0x10 => Some(CallKind::Osbput),
            0x12 => Some(find_kind(body)),
            0x14 => Some(CallKind::Osfile),
            0x16 => Some(CallKind::Osgbpb),
            _ => None,
        }
    }

    // How the reply ends.
    pub fn shape(self) -> Shape
        ensures { shape_for result ≡ shape_of (kind_for self) }
    {
        match self {
            CallKind::Oscli
            | CallKind::OsbyteLow
            | CallKind::Osbput
            | CallKind::OsfindClose
            | CallKind::OsfindOpen => Shape::Fixed(1),
            CallKind::Osrdch | CallKind::Osbget => Shape::Fixed(2),
            CallKind::OsbyteHigh => Shape::Fixed(3),
            CallKind::Osword(n) => Shape::Fixed(n),
            CallKind::Osword0 => Shape::Line,
            CallKind::Osargs => Shape::Fixed(5),
            CallKind::Osfile => Shape::Fixed(17),
            CallKind::Osgbpb => Shape::Fixed(15),
        }
    }

    // The form of the reply.
    pub fn form(self) -> Form
        ensures { form_number result ≡ form_of (kind_for self) }
    {
        match self {
            CallKind::Osrdch | CallKind::Osbget => Form::CarryA,
            CallKind::Oscli => Form::Ack,
            CallKind::OsbyteLow | CallKind::OsfindOpen => Form::Byte,
            CallKind::OsbyteHigh => Form::CarryYX,
            CallKind::Osword(_) => Form::Block,
            CallKind::Osword0 => Form::Line,
            CallKind::Osargs | CallKind::Osfile => Form::ABlock,
            CallKind::Osbput | CallKind::OsfindClose => Form::Plain,
            CallKind::Osgbpb => Form::BlockCarryA,
        }
    }

    // The length of the reply's block.
    pub fn block_length(self) -> usize
        ensures { result ≡ block_in (kind_for self) }
    {
        match self {
            CallKind::Osword(n) => usize::from(n),
            CallKind::Osargs => 4,
            CallKind::Osfile => 16,
            CallKind::Osgbpb => 13,
            _ => 0,
        }
    }
}

// Closing or opening, by the first byte.
#[tactic(auto, unfolding(serial_rules::specs::Fields::fields_of))]
fn find_kind(body: &[u8]) -> CallKind
    ensures { kind_for result ≡ kind_from 0x12 body.now }
{
    if places::byte_at(body, 0) == 0 {
        CallKind::OsfindClose
    } else {
        CallKind::OsfindOpen
    }
}
