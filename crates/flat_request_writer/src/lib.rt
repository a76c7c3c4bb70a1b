// The request writer with numbers for the carrier and the call, and a flat record for its answer, so that it can cross to C.
#![tactic(auto)]

ghost use Rattle.std.specs.Prelude.{◌≡◌};
ghost use Rattle.flat_request_writer.specs.Calls.{call_at, call_from, NumberedDone, FlatRequestDone};

use calls::Call;
use carrier::Carrier;
use flat::FlatWritten;
use refusal::Refusal;
use strings::Text;

// Writes a request: see `request_writer::write_request`. The calls are numbered in the order of `calls::Call`, from 0, the carriers as
// `carrier::Carrier` numbers them. A call that is none is answered first of all; another carrier is a field that breaks its rule. A number that
// the call does not have is not read.
#[tactic(auto, using(crate::proofs::Calls::flat))]
pub fn write_request(
    carrier: u8,
    style: u8,
    call: u8,
    x: u8,
    y: u8,
    a: u8,
    out_length: u8,
    block: &[u8],
    text: &[u8],
    out: &mut [u8],
) -> FlatWritten
    ensures { FlatRequestDone carrier style call (call_at call x y a out_length) block.now text.now out.old result out.new }
{
    let given = call_from(call, x, y, a, out_length);
    FlatWritten::from(write_numbered(carrier, style, given, block, text, out))
}

// The same with the call, or none where no call has the number. The checks come in the order of their answers.
#[tactic(auto, using(request_writer::proofs::Answers::too_long))]
fn write_numbered(
    carrier: u8,
    style: u8,
    call: Option<Call>,
    block: &[u8],
    text: &[u8],
    out: &mut [u8],
) -> Result<usize, Refusal>
    ensures { NumberedDone carrier style call block.now text.now out.old result out.new }
{
    let given = call.ok_or(Refusal::NotCarried)?;
    if Text::LIMIT < text.len() {
        return Err(Refusal::TooLong);
    }
    let on = Carrier::try_from(carrier)?;
    request_writer::write_request(on, style, given, block, text, out)
}

// The call of a number, with the numbers that it has.
fn call_from(number: u8, x: u8, y: u8, a: u8, out_length: u8) -> Option<Call>
    ensures { result ≡ call_from number x y a out_length }
{
    let call = match number {
        0 => Call::Osrdch,
        1 => Call::Oscli,
        2 => Call::OsbyteLow { x, a },
        3 => Call::OsbyteHigh { x, y, a },
        4 => Call::Osword { a, out_length },
        5 => Call::Osword0,
        6 => Call::Osargs { y, a },
        7 => Call::Osbget { y },
        8 => Call::Osbput { y, a },
        9 => Call::OsfindClose { y },
        10 => Call::OsfindOpen { a },
        11 => Call::Osfile { a },
        12 => Call::Osgbpb { a },
        _ => return None,
    };
    Some(call)
}
