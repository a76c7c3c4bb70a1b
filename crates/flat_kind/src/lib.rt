// The kinds of call by number, with total conversions, so that they can cross to C. The calls are numbered in the order of
// `kind::CallKind`, from 0, as `tube_write_request` numbers them.
#![tactic(auto)]

ghost use Rattle.std.specs.Prelude.{◌≤◌, ◌≡◌};
ghost use Rattle.flat_kind.specs.Kinds.{kind_at, known_kind, kind_number, kind_out, flat_found, FlatKindDone};

use kind::CallKind;

// The kind of a call: its number, and OSWORD's out length, else 0; or no call.
#[repr(C)]
#[derive(Clone, Copy, PartialEq, Eq, Debug)]
pub struct FlatKind {
    pub call: u8,
    pub out_length: u8,
}

impl FlatKind {
    // The highest number of a call.
    pub const LAST: u8 = 12;
    // The number for no call.
    pub const NONE: u8 = 255;
}

impl From<Option<CallKind>> for FlatKind {
    // A kind, or no call.
    fn from(found: Option<CallKind>) -> FlatKind
        ensures { result ≡ flat_found found }
    {
        match found {
            Some(kind) => FlatKind {
                call: kind_number(kind),
                out_length: kind_out(0, kind),
            },
            None => FlatKind {
                call: FlatKind::NONE,
                out_length: 0,
            },
        }
    }
}

// The kind of a finished request: see `kind::CallKind::of_request`.
pub fn kind_of(code: u8, body: &[u8]) -> FlatKind
    ensures { FlatKindDone code body.now result }
{
    FlatKind::from(CallKind::of_request(code, body))
}

// The kind of a number, with OSWORD's out length, if a call has the number.
pub fn known_kind(n: u8, out_length: u8) -> Option<CallKind>
    ensures { result ≡ known_kind n out_length }
{
    if n <= FlatKind::LAST {
        Some(kind_at(n, out_length))
    } else {
        None
    }
}

// The same of a number of a call; one above the last falls to the last.
pub fn kind_at(n: u8, out_length: u8) -> CallKind
    ensures { result ≡ kind_at n out_length }
{
    match n {
        0 => CallKind::Osrdch,
        1 => CallKind::Oscli,
        2 => CallKind::OsbyteLow,
        3 => CallKind::OsbyteHigh,
        4 => CallKind::Osword(out_length),
        5 => CallKind::Osword0,
        6 => CallKind::Osargs,
        7 => CallKind::Osbget,
        8 => CallKind::Osbput,
        9 => CallKind::OsfindClose,
        10 => CallKind::OsfindOpen,
        11 => CallKind::Osfile,
        _ => CallKind::Osgbpb,
    }
}

// The number of a kind, and its out length, or the one given.
pub fn kind_number(kind: CallKind) -> u8
    ensures { (result ≡ kind_number kind) × (result ≤ 12) }
{
    match kind {
        CallKind::Osrdch => 0,
        CallKind::Oscli => 1,
        CallKind::OsbyteLow => 2,
        CallKind::OsbyteHigh => 3,
        CallKind::Osword(_) => 4,
        CallKind::Osword0 => 5,
        CallKind::Osargs => 6,
        CallKind::Osbget => 7,
        CallKind::Osbput => 8,
        CallKind::OsfindClose => 9,
        CallKind::OsfindOpen => 10,
        CallKind::Osfile => 11,
        CallKind::Osgbpb => 12,
    }
}

pub fn kind_out(given: u8, kind: CallKind) -> u8
    ensures { result ≡ kind_out given kind }
{
    match kind {
        CallKind::Osword(n) => n,
        _ => given,
    }
}
