// The calls that a client sends, and what the request table says of each.
#![tactic(auto)]

ghost use Rattle.std.specs.Prelude.{◌≡◌, ◌&&◌};
ghost use Rattle.serial_rules.specs.Call.{style_ok};
ghost use Rattle.carrier.specs.Carriers.{carrier_of};
ghost use Rattle.calls.specs.Calls.{call_of};
ghost use Rattle.calls.specs.Rows.{length_byte, row_of, given_ok};

use carrier::Carrier;
use fields::Few;
use strings::Text;

// A call with its numbers; its block and its string are given beside it.
#[derive(Clone, Copy)]
pub enum Call {
    Osrdch,
    Oscli,
    OsbyteLow { x: u8, a: u8 },
    OsbyteHigh { x: u8, y: u8, a: u8 },
    Osword { a: u8, out_length: u8 },
    Osword0,
    Osargs { y: u8, a: u8 },
    Osbget { y: u8 },
    Osbput { y: u8, a: u8 },
    OsfindClose { y: u8 },
    OsfindOpen { a: u8 },
    Osfile { a: u8 },
    Osgbpb { a: u8 },
}

// A block's length as a byte; 0, which is not its length, where it is too long.
pub fn length_byte(length: usize) -> u8
    ensures { result ≡ length_byte length }
{
    u8::try_from(length).unwrap_or(0)
}

// What the request table says of a call: its code, whether its numbers keep their rules, how long its block is and whether it has a string;
// and the numbers of its body, `head` before block and string, `tail` behind them.
#[derive(Clone, Copy)]
pub struct Row {
    pub code: u8,
    pub good: bool,
    pub block: u8,
    pub string: bool,
    pub head: Few<3>,
    pub tail: Few<2>,
}

impl Row {
    // A row without numbers, block and string.
    const BARE: Row = Row {
        code: 0x00,
        good: true,
        block: 0,
        string: false,
        head: Few {
            bytes: [0; 3],
            count: 0,
        },
        tail: Few {
            bytes: [0; 2],
            count: 0,
        },
    };
}

// The row of a call, whose block has the length `length`.
#[tactic(auto, unfolding(crate::specs::Rows::row_of, serial_rules::specs::Call::code_of))]
pub fn row_of(call: Call, length: u8) -> Row
    ensures { result ≡ row_of (call_of call) length }
{
    match call {
        Call::Osrdch => Row::BARE,
        Call::Oscli => Row {
            code: 0x02,
            string: true,
            tail: Few::of([Text::RETURN]),
            ..Row::BARE
        },
        Call::OsbyteLow { x, a } => Row {
            code: 0x04,
            good: a < 0x80,
            head: Few::of([x, a]),
            ..Row::BARE
        },
        Call::OsbyteHigh { x, y, a } => Row {
            code: 0x06,
            good: 0x80 <= a,
            head: Few::of([x, y, a]),
            ..Row::BARE
        },
        Call::Osword { a, out_length } => Row {
            code: 0x08,
            good: a != 0,
            block: length,
            head: Few::of([a, length]),
            tail: Few::of([out_length]),
            ..Row::BARE
        },
        Call::Osword0 => Row {
            code: 0x0A,
            block: 5,
            ..Row::BARE
        },
        Call::Osargs { y, a } => Row {
            code: 0x0C,
            block: 4,
            head: Few::of([y]),
            tail: Few::of([a]),
            ..Row::BARE
        },
        Call::Osbget { y } => Row {
            code: 0x0E,
            head: Few::of([y]),
            ..Row::BARE
        },
        Call::Osbput { y, a } => Row {
            code: 0x10,
            head: Few::of([y, a]),
            ..Row::BARE
        },
        Call::OsfindClose { y } => Row {
            code: 0x12,
            head: Few::of([0, y]),
            ..Row::BARE
        },
        Call::OsfindOpen { a } => Row {
            code: 0x12,
            good: a != 0,
            string: true,
            head: Few::of([a]),
            tail: Few::of([Text::RETURN]),
            ..Row::BARE
        },
        Call::Osfile { a } => Row {
            code: 0x14,
            block: 16,
            string: true,
            tail: Few::of([Text::RETURN, a]),
            ..Row::BARE
        },
        Call::Osgbpb { a } => Row {
            code: 0x16,
            block: 13,
            tail: Few::of([a]),
            ..Row::BARE
        },
    }
}

// Whether the style and all that is given keep the rules.
#[tactic(auto, using(crate::proofs::Rows::no_string_given), unfolding(crate::specs::Rows::given_ok))]
pub fn given_ok(carrier: Carrier, style: u8, row: Row, block: &[u8], text: &[u8]) -> bool
    ensures { result ≡ (style_ok (carrier_of carrier) style && given_ok row block.now text.now) }
{
    if !carrier.has_style(style) || !row.good || block.len() != usize::from(row.block) {
        return false;
    }
    if row.string {
        return !strings::has_return(text);
    }
    text.is_empty()
}
