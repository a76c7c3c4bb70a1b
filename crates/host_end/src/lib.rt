// The exports of the host's end: requests read in slices and taken apart, replies written. Answers are numbers and records flat.
#![tactic(auto)]

ghost use Rattle.std.specs.Prelude.{◌≡◌};
ghost use Rattle.strings.specs.Text.{name_of};
ghost use Rattle.flat.specs.Flat.{flat_name};
ghost use Rattle.flat_reader.specs.Readers.{fresh_reader};
ghost use Rattle.flat_request.specs.Feeds.{FlatFeedDone};
ghost use Rattle.flat_kind.specs.Kinds.{kind_at, FlatKindDone};
ghost use Rattle.flat_reply.specs.Replies.{reply_at, FlatReplyDone};
ghost use Rattle.flat_asked.specs.Asks.{FlatAskedDone};

use flat::{FlatName, FlatWritten};
use flat_asked::FlatAsked;
use flat_kind::FlatKind;
use flat_reader::FlatReader;
use flat_request::FlatFed;
use request_reader::Reader;

// A fresh request reader: see `flat_request::fresh`.
pub fn tube_reader(carrier: u8) -> FlatReader
    ensures { result ≡ fresh_reader carrier }
{
    flat_request::fresh(carrier)
}

// Raw bytes up to the first answer that is not need-more: see `flat_request::feed`.
pub fn tube_feed(reader: FlatReader, raw: &[u8], body: &mut [u8; Reader::BODY]) -> FlatFed
    ensures { FlatFeedDone reader body.old raw.now result body.new }
{
    flat_request::feed(reader, raw, body)
}

// The fields of a finished request: see `flat_asked::read_request`.
pub fn tube_read_request(code: u8, body: &[u8]) -> FlatAsked
    ensures { FlatAskedDone code body.now result }
{
    flat_asked::read_request(code, body)
}

// The kind of a finished request: see `flat_kind::kind_of`.
pub fn tube_kind_of(code: u8, body: &[u8]) -> FlatKind
    ensures { FlatKindDone code body.now result }
{
    flat_kind::kind_of(code, body)
}

// The name in a body of OSFILE: see `strings::file_name`.
pub fn tube_file_name(body: &[u8]) -> FlatName
    ensures { result ≡ flat_name (name_of body.now) }
{
    FlatName::from(strings::file_name(body))
}

// Writes a reply: see `flat_reply::write_reply`.
pub fn tube_write_reply(
    carrier: u8,
    call: u8,
    out_length: u8,
    reply: u8,
    carry: u8,
    x: u8,
    y: u8,
    a: u8,
    block: &[u8],
    text: &[u8],
    out: &mut [u8],
) -> FlatWritten
    ensures { FlatReplyDone carrier call (kind_at call out_length) reply (reply_at reply carry x y a) block.now text.now out.old result out.new }
{
    flat_reply::write_reply(
        carrier, call, out_length, reply, carry, x, y, a, block, text, out,
    )
}
