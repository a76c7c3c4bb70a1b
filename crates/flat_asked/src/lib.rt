// The fields of a request as a flat record: numbers for the call and its own numbers, so that it can cross to C.
#![tactic(auto)]

ghost use Rattle.std.specs.Prelude.{◌≡◌};
ghost use Rattle.flat_asked.specs.Asks.{asked_as, FlatAskedDone};

use calls::Call;
use flat_kind::FlatKind;
use places::Fields;

// A request read: its call by number, as `tube_write_request` numbers them, or no call; its own numbers; and where its block and its string lie
// in the body. What the call lacks is 0.
#[repr(C)]
#[derive(Clone, Copy)]
pub struct FlatAsked {
    pub block_start: usize,
    pub block_length: usize,
    pub text_start: usize,
    pub text_length: usize,
    pub call: u8,
    pub x: u8,
    pub y: u8,
    pub a: u8,
    pub out_length: u8,
}

impl FlatAsked {
    // What is said of a code that is no call's.
    const NO_CALL: FlatAsked = FlatAsked {
        block_start: 0,
        block_length: 0,
        text_start: 0,
        text_length: 0,
        call: FlatKind::NONE,
        x: 0,
        y: 0,
        a: 0,
        out_length: 0,
    };
}

// The fields of a finished request: see `request::read_request`.
pub fn read_request(code: u8, body: &[u8]) -> FlatAsked
    ensures { FlatAskedDone code body.now result }
{
    match request::read_request(code, body) {
        Some(asked) => FlatAsked::from(asked),
        None => FlatAsked::NO_CALL,
    }
}

impl From<Fields<Call>> for FlatAsked {
    // The flat record of the fields of a request.
    fn from(asked: Fields<Call>) -> FlatAsked
        ensures { result ≡ asked_as asked asked.said }
    {
        let base = FlatAsked {
            block_start: asked.block.start,
            block_length: asked.block.length,
            text_start: asked.text.start,
            text_length: asked.text.length,
            ..FlatAsked::NO_CALL
        };
        match asked.said {
            Call::Osrdch => FlatAsked { call: 0, ..base },
            Call::Oscli => FlatAsked { call: 1, ..base },
            Call::OsbyteLow { x, a } => FlatAsked {
                call: 2,
                x,
                a,
                ..base
            },
            Call::OsbyteHigh { x, y, a } => FlatAsked {
                call: 3,
                x,
                y,
                a,
                ..base
            },
            Call::Osword { a, out_length } => FlatAsked {
                call: 4,
                a,
                out_length,
                ..base
            },
            Call::Osword0 => FlatAsked { call: 5, ..base },
            Call::Osargs { y, a } => FlatAsked {
                call: 6,
                y,
                a,
                ..base
            },
            Call::Osbget { y } => FlatAsked { call: 7, y, ..base },
            Call::Osbput { y, a } => FlatAsked {
                call: 8,
                y,
                a,
                ..base
            },
            Call::OsfindClose { y } => FlatAsked { call: 9, y, ..base },
            Call::OsfindOpen { a } => FlatAsked {
                call: 10,
                a,
                ..base
            },
            Call::Osfile { a } => FlatAsked {
                call: 11,
                a,
                ..base
            },
            Call::Osgbpb { a } => FlatAsked {
                call: 12,
                a,
                ..base
            },
        }
    }
}
