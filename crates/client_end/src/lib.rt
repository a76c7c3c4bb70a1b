// The exports of the client's end: requests written, a link with its begun calls and its loop, replies read and taken apart. Answers are numbers
// and records flat.
#![tactic(auto)]

ghost use Rattle.std.specs.Prelude.{◌≡◌};
ghost use Rattle.flat_request_writer.specs.Calls.{call_at, FlatRequestDone};
ghost use Rattle.flat_kind.specs.Kinds.{kind_at};
ghost use Rattle.link_record.specs.Records.{fresh_link};
ghost use Rattle.flat_link.specs.Links.{FlatBeginDone};
ghost use Rattle.flat_link.specs.Runs.{FlatRunDone};
ghost use Rattle.flat_reply.specs.Replies.{FlatReadDone, FlatTakeDone};

use flat::FlatWritten;
use flat_link::{FlatBegun, FlatRan};
use flat_reply::{FlatGiven, FlatTaken};
use kind::CallKind;
use link::Link;
use link_record::FlatLink;

// Writes a request: see `flat_request_writer::write_request`.
pub fn tube_write_request(
    carrier: u8,
    style: u8,
    call: u8,
    x: u8,
    y: u8,
    a: u8,
    out_length: u8,
    block: &[u8],
    text: &[u8],
    out: &mut [u8],
) -> FlatWritten
    ensures { FlatRequestDone carrier style call (call_at call x y a out_length) block.now text.now out.old result out.new }
{
    flat_request_writer::write_request(carrier, style, call, x, y, a, out_length, block, text, out)
}

// A fresh link: see `link_record::fresh`.
pub fn tube_link() -> FlatLink
    ensures { result ≡ fresh_link }
{
    link_record::fresh()
}

// Begins a call: see `flat_link::begin`.
pub fn tube_begin(link: FlatLink, call: u8, out_length: u8) -> FlatBegun
    ensures { FlatBeginDone link call out_length result }
{
    flat_link::begin(link, call, out_length)
}

// The loop over raw bytes: see `flat_link::run`.
pub fn tube_run(
    link: FlatLink,
    raw: &[u8],
    reply: &mut [u8; CallKind::REPLY],
    own: &mut [u8; Link::OWN],
    room: &mut [u8],
    content: &mut [u8],
) -> FlatRan
    ensures { FlatRunDone link reply.old own.old raw.now room.old content.old result reply.new own.new room.new content.new }
{
    flat_link::run(link, raw, reply, own, room, content)
}

// One byte of a reply on the parallel side: see `flat_reply::reply_step`.
pub fn tube_reply_step(
    call: u8,
    out_length: u8,
    count: u16,
    byte: u8,
    reply: &mut [u8; CallKind::REPLY],
) -> FlatTaken
    ensures { FlatTakeDone call (kind_at call out_length) count byte reply.old result reply.new }
{
    flat_reply::reply_step(call, out_length, count, byte, reply)
}

// The fields of a finished reply: see `flat_reply::read_reply`.
pub fn tube_read_reply(call: u8, out_length: u8, bytes: &[u8]) -> FlatGiven
    ensures { FlatReadDone call (kind_at call out_length) bytes.now result }
{
    flat_reply::read_reply(call, out_length, bytes)
}
