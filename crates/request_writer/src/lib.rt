// The writer of the requests of the calls that a client sends.
#![tactic(auto)]

ghost use Rattle.std.specs.Prelude.{◌≡◌};
ghost use Rattle.carrier.specs.Carriers.{carrier_of};
ghost use Rattle.fields.specs.Promise.{Encoded};
ghost use Rattle.calls.specs.Rows.{row_raw, Writable};
ghost use Rattle.request_writer.specs.Promise.{RequestDone};

use calls::{Call, Row};
use carrier::Carrier;
use escape::Piece;
use refusal::Refusal;
use strings::Text;

// Writes a request into the start of `out`: for the serial lead the mark of code and style and the body with each escape byte doubled, for the
// parallel side the plain code and the body as it is. The checks come in the order of their answers; a refused request has touched no byte.
#[tactic(auto, using(crate::proofs::Answers::answers))]
pub fn write_request(
    carrier: Carrier,
    style: u8,
    call: Call,
    block: &[u8],
    text: &[u8],
    out: &mut [u8],
) -> Result<usize, Refusal>
    ensures { RequestDone (carrier_of carrier) style call block.now text.now out.old result out.new }
{
    if Text::LIMIT < text.len() {
        return Err(Refusal::TooLong);
    }
    let row = calls::row_of(call, calls::length_byte(block.len()));
    if !calls::given_ok(carrier, style, row, block, text) {
        return Err(Refusal::BadField);
    }
    write_row(carrier, style, &row, block, text, out)
}

// Writes the request of a row, whose style, block and string keep their rules: the escape and the mark, or the plain code, and the body.
fn write_row<'a>(
    carrier: Carrier,
    style: u8,
    row: &'a Row,
    block: &'a [u8],
    text: &'a [u8],
    out: &mut [u8],
) -> Result<usize, Refusal>
    requires { Writable carrier style row.now }
    ensures { Encoded (row_raw carrier style row.now block.now text.now) out.old result out.new }
{
    let start = [Piece::ESCAPE, style * 32 + row.code];
    let heading = match carrier {
        Carrier::Serial => &start[..],
        Carrier::Parallel => &start[1..],
    };
    fields::write_fields(
        carrier,
        heading,
        &[row.head.as_slice(), block, text, row.tail.as_slice()],
        out,
    )
}
