// The replies that a host sends to the call that waits, and their fields in the bytes that were read.
#![tactic(auto)]

ghost use Rattle.std.specs.Prelude.{◌≡◌};
ghost use Rattle.serial_rules.specs.Fields.{at};
ghost use Rattle.serial_rules.specs.Reply.{osword0, flag, reply_read};
ghost use Rattle.reply.specs.Promise.{GivenDone, ReadDone};

use kind::CallKind;
use places::Fields;

// A reply with its numbers; its block and its string are given beside it. Each is named for what document 01 says of it: "Cy A"; "ack";
// one number, "X" or "A"; "Cy Y X"; "out length bytes"; "escaped, or line string"; "A, 4 bytes" or "A, 16 bytes"; "one byte" without a
// meaning; "13 bytes, Cy A".
#[derive(Clone, Copy)]
pub enum Reply {
    CarryA { carry: bool, a: u8 },
    Ack(bool),
    Byte(u8),
    CarryYX { carry: bool, y: u8, x: u8 },
    Block,
    EscapedLine,
    ReadLine,
    ABlock(u8),
    Plain,
    BlockCarryA { carry: bool, a: u8 },
}

// The fields of a finished reply to a call of this kind. A byte that is not there counts as 0.
#[tactic(auto, using(places::proofs::Parts::fields), unfolding(serial_rules::specs::Reply::reply_read))]
pub fn read_reply(kind: CallKind, bytes: &[u8]) -> Fields<Reply>
    ensures { ReadDone kind bytes.now result }
{
    match kind {
        CallKind::Osrdch | CallKind::Osbget => Fields::numbers(Reply::CarryA {
            carry: flag_at(bytes, 0),
            a: places::byte_at(bytes, 1),
        }),
        CallKind::Oscli => Fields::numbers(Reply::Ack(flag_at(bytes, 0))),
        CallKind::OsbyteLow | CallKind::OsfindOpen => {
            Fields::numbers(Reply::Byte(places::byte_at(bytes, 0)))
        }
        CallKind::OsbyteHigh => Fields::numbers(Reply::CarryYX {
            carry: flag_at(bytes, 0),
            y: places::byte_at(bytes, 1),
            x: places::byte_at(bytes, 2),
        }),
        CallKind::Osword(_) => {
            Fields::with_block(Reply::Block, places::part_behind(bytes, 0, bytes.len()))
        }
        CallKind::Osword0 => line(bytes),
        CallKind::Osargs | CallKind::Osfile => Fields::with_block(
            Reply::ABlock(places::byte_at(bytes, 0)),
            places::part_behind(bytes, 1, bytes.len()),
        ),
        CallKind::Osbput | CallKind::OsfindClose => Fields::numbers(Reply::Plain),
        CallKind::Osgbpb => Fields::with_block(
            Reply::BlockCarryA {
                carry: flag_at(bytes, 13),
                a: places::byte_at(bytes, 14),
            },
            places::part_behind(bytes, 0, 13),
        ),
    }
}

// A line, behind a byte whose bit 7 says that there is none, and before its return.
#[tactic(auto, using(places::proofs::Parts::fields), unfolding(serial_rules::specs::Reply::reply_read))]
fn line(bytes: &[u8]) -> Fields<Reply>
    ensures { GivenDone bytes.now (reply_read osword0 bytes.now) result }
{
    if flag_at(bytes, 0) {
        return Fields::numbers(Reply::EscapedLine);
    }
    Fields::with_text(
        Reply::ReadLine,
        places::part_behind(bytes, 1, bytes.len().saturating_sub(2)),
    )
}

// Bit 7 of the byte at an index.
fn flag_at(bytes: &[u8], i: usize) -> bool
    ensures { result ≡ flag (at bytes.now i) }
{
    places::byte_at(bytes, i) / 128 % 2 == 1
}
