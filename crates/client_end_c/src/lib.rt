// The exports of the client's end, thin: those of `client_end`, for C.
#![tactic(auto)]

ghost use Rattle.std.specs.Prelude.{◌≡◌};
ghost use Rattle.flat_request_writer.specs.Calls.{call_at, FlatRequestDone};
ghost use Rattle.flat_kind.specs.Kinds.{kind_at};
ghost use Rattle.link_record.specs.Records.{fresh_link};
ghost use Rattle.flat_link.specs.Links.{FlatBeginDone};
ghost use Rattle.flat_link.specs.Runs.{FlatRunDone};
ghost use Rattle.flat_reply.specs.Replies.{FlatReadDone, FlatTakeDone};

use flat::FlatWritten;
use flat_link::{FlatBegun, FlatRan};
use flat_reply::{FlatGiven, FlatTaken};
use kind::CallKind;
use link::Link;
use link_record::FlatLink;

// Writes a request: see `client_end::tube_write_request`.
#[unsafe(no_mangle)]
pub extern "C" fn tube_write_request(
    carrier: u8,
    style: u8,
    call: u8,
    x: u8,
    y: u8,
    a: u8,
    out_length: u8,
    block: &[u8],
    text: &[u8],
    out: &mut [u8],
) -> FlatWritten
    ensures { FlatRequestDone carrier style call (call_at call x y a out_length) block.now text.now out.old result out.new }
{
    client_end::tube_write_request(carrier, style, call, x, y, a, out_length, block, text, out)
}

// A fresh link: see `client_end::tube_link`.
#[unsafe(no_mangle)]
pub extern "C" fn tube_link() -> FlatLink
    ensures { result ≡ fresh_link }
{
    client_end::tube_link()
}

// Begins a call: see `client_end::tube_begin`.
#[unsafe(no_mangle)]
pub extern "C" fn tube_begin(link: FlatLink, call: u8, out_length: u8) -> FlatBegun
    ensures { FlatBeginDone link call out_length result }
{
    client_end::tube_begin(link, call, out_length)
}

// The loop over raw bytes: see `client_end::tube_run`.
#[unsafe(no_mangle)]
pub extern "C" fn tube_run(
    link: FlatLink,
    raw: &[u8],
    reply: &mut [u8; CallKind::REPLY],
    own: &mut [u8; Link::OWN],
    room: &mut [u8],
    content: &mut [u8],
) -> FlatRan
    ensures { FlatRunDone link reply.old own.old raw.now room.old content.old result reply.new own.new room.new content.new }
{
    client_end::tube_run(link, raw, reply, own, room, content)
}

// One byte of a reply on the parallel side: see `client_end::tube_reply_step`.
#[unsafe(no_mangle)]
pub extern "C" fn tube_reply_step(
    call: u8,
    out_length: u8,
    count: u16,
    byte: u8,
    reply: &mut [u8; CallKind::REPLY],
) -> FlatTaken
    ensures { FlatTakeDone call (kind_at call out_length) count byte reply.old result reply.new }
{
    client_end::tube_reply_step(call, out_length, count, byte, reply)
}

// The fields of a finished reply: see `client_end::tube_read_reply`.
#[unsafe(no_mangle)]
pub extern "C" fn tube_read_reply(call: u8, out_length: u8, bytes: &[u8]) -> FlatGiven
    ensures { FlatReadDone call (kind_at call out_length) bytes.now result }
{
    client_end::tube_read_reply(call, out_length, bytes)
}
