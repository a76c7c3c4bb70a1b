// The exports that read one raw byte, thin: those of `steps`, for C.
#![tactic(auto)]

ghost use Rattle.flat_reader.specs.Readers.{FlatDone};
ghost use Rattle.flat_link.specs.Links.{FlatStepDone};

use flat_link::FlatTold;
use flat_reader::{FlatRead, FlatReader};
use kind::CallKind;
use link::Link;
use link_record::FlatLink;
use request_reader::Reader;

// One raw byte to a request reader: see `steps::tube_read`.
#[unsafe(no_mangle)]
pub extern "C" fn tube_read(reader: FlatReader, raw: u8, body: &mut [u8; Reader::BODY]) -> FlatRead
    ensures { FlatDone reader body.old raw result body.new }
{
    steps::tube_read(reader, raw, body)
}

// One raw byte to a link: see `steps::tube_link_step`.
#[unsafe(no_mangle)]
pub extern "C" fn tube_link_step(
    link: FlatLink,
    raw: u8,
    reply: &mut [u8; CallKind::REPLY],
    own: &mut [u8; Link::OWN],
) -> FlatTold
    ensures { FlatStepDone link reply.old own.old raw result reply.new own.new }
{
    steps::tube_link_step(link, raw, reply, own)
}
