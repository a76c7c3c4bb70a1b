// The writer of the actions that a host sends on the serial lead.
#![tactic(auto)]

ghost use Rattle.std.specs.Prelude.{◌∷◌};
ghost use Rattle.serial_rules.specs.Escape.{escape, escaped};
ghost use Rattle.fields.specs.Promise.{Encoded};
ghost use Rattle.action_parts.specs.Parts.{parts_own};
ghost use Rattle.action_writer.specs.Promise.{ActionWritten};

use action_parts::{Parts, Sent};
use carrier::Carrier;
use escape::Piece;
use refusal::Refusal;
use strings::Text;

// Writes an action into the start of `out`: the escape, the mark and its own bytes with each escape byte doubled. The checks come in the order of their
// answers; a refused action has touched no byte.
#[tactic(auto, using(crate::proofs::Laws::answers))]
pub fn write_action(
    action: Sent,
    block: &[u8],
    text: &[u8],
    out: &mut [u8],
) -> Result<usize, Refusal>
    ensures { ActionWritten action block.now text.now out.old result out.new }
{
    if Text::LIMIT < text.len() {
        return Err(Refusal::TooLong);
    }
    let parts = action_parts::parts_of(action, calls::length_byte(block.len()));
    if !action_parts::fits(parts, block, text) {
        return Err(Refusal::BadField);
    }
    write(&parts, block, text, out)
}

// Writes parts whose block and text keep their rules.
#[tactic(auto, unfolding(room::specs::Carriers::coded))]
fn write<'a>(
    parts: &'a Parts,
    block: &'a [u8],
    text: &'a [u8],
    out: &mut [u8],
) -> Result<usize, Refusal>
    ensures { Encoded (escape ∷ parts.now.mark ∷ escaped (parts_own parts.now block.now text.now)) out.old result out.new }
{
    fields::write_fields(
        Carrier::Serial,
        &[Piece::ESCAPE, parts.mark],
        &[
            parts.head.as_slice(),
            parts.middle.of(block, text),
            parts.tail.as_slice(),
        ],
        out,
    )
}
