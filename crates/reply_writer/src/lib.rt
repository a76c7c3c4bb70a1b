// The writer of the replies that a host sends to the call that waits.
#![tactic(auto)]

ghost use Rattle.carrier.specs.Carriers.{carrier_of};
ghost use Rattle.room.specs.Carriers.{coded};
ghost use Rattle.fields.specs.Promise.{Encoded};
ghost use Rattle.reply_parts.specs.Parts.{parts_bytes};
ghost use Rattle.reply_writer.specs.Promise.{ReplyWritten};

use carrier::Carrier;
use kind::CallKind;
use refusal::Refusal;
use reply::Reply;
use reply_parts::Parts;
use strings::Text;

// Writes the reply to a call of this kind into the start of `out`: on the serial lead each escape byte doubled, on the parallel side as it is. A
// refused one has touched no byte.
#[tactic(auto, using(crate::proofs::Laws::answers))]
pub fn write_reply(
    carrier: Carrier,
    kind: CallKind,
    reply: Reply,
    block: &[u8],
    text: &[u8],
    out: &mut [u8],
) -> Result<usize, Refusal>
    ensures { ReplyWritten (carrier_of carrier) kind reply block.now text.now out.old result out.new }
{
    if Text::LIMIT < text.len() {
        return Err(Refusal::TooLong);
    }
    let parts = reply_parts::parts_of(reply);
    if !reply_parts::fits(kind, parts, block, text) {
        return Err(Refusal::BadField);
    }
    write(carrier, &parts, block, text, out)
}

// Writes parts as fields of data bytes: the line, the block or neither stands in the middle.
fn write<'a>(
    carrier: Carrier,
    parts: &'a Parts,
    block: &'a [u8],
    text: &'a [u8],
    out: &mut [u8],
) -> Result<usize, Refusal>
    ensures { Encoded (coded carrier (parts_bytes parts.now block.now text.now)) out.old result out.new }
{
    fields::write_fields(
        carrier,
        &[],
        &[
            parts.head.as_slice(),
            parts.middle.of(block, text),
            parts.tail.as_slice(),
        ],
        out,
    )
}
