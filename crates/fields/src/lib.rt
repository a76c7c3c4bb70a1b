// The writer that every encoding is made with: a heading, then fields of data bytes; and the few bytes that a field is made of.
#![tactic(auto)]

ghost use Rattle.std.specs.Prelude.{◌≤◌, [], ◌∷◌, length};
ghost use Rattle.serial_rules.specs.Escape.{escape, escaped};
ghost use Rattle.escape.specs.Put.{Put};
ghost use Rattle.room.specs.Carriers.{coded, parts_raw};
ghost use Rattle.fields.specs.Promise.{Encoded};

mod few;
mod middle;

use carrier::Carrier;
pub use few::Few;
pub use middle::Middle;
use refusal::Refusal;

// The bytes of a piece of load data that is looked at and copied at once, and of a smaller one.
const PIECE: usize = 128;

const EIGHT: usize = 8;

// Writes a heading as it is, then fields of data bytes, one behind the other, into the start of `out`: on the serial lead each escape byte
// doubled, on the parallel side as they are. Where the whole does not fit, nothing is written.
pub fn write_fields(
    carrier: Carrier,
    heading: &[u8],
    fields: &[&[u8]],
    out: &mut [u8],
) -> Result<usize, Refusal>
    ensures { Encoded (parts_raw carrier heading.now fields.now) out.old result out.new }
{
    if !room::parts_fit(carrier, heading, fields, out.len()) {
        return Err(Refusal::NoRoom);
    }
    Ok(put_parts(carrier, heading, fields, out))
}

// Writes data bytes on the serial lead into the start of `out`, each escape byte doubled. They are looked through once, and where they do not fit nothing is
// written.
pub fn write_data(bytes: &[u8], out: &mut [u8]) -> Result<usize, Refusal>
    ensures { Encoded (escaped bytes.now) out.old result out.new }
{
    let Some(spare) = out.len().checked_sub(bytes.len()) else {
        return Err(Refusal::NoRoom);
    };
    let more = escape::count_escapes(bytes);
    if spare < more {
        return Err(Refusal::NoRoom);
    }
    if more == 0 {
        return Ok(put_plain(bytes, out));
    }
    Ok(put_pieces(bytes, out))
}

// Writes the whole, for which there is room; returns how many bytes. Each field goes into the tail that those before it leave.
fn put_parts(carrier: Carrier, heading: &[u8], fields: &[&[u8]], out: &mut [u8]) -> usize
    requires { length (parts_raw carrier heading.now fields.now) ≤ length out.old }
    ensures { Put (parts_raw carrier heading.now fields.now) out.old out.new result }
{
    let mut at = put_plain(heading, out);
    for field in fields {
        at += put_data(carrier, field, &mut out[at..]);
    }
    at
}

// Writes data bytes as they are, and on the serial lead, where there is an escape byte, with each of these doubled.
#[tactic(auto, unfolding(room::specs::Carriers::coded))]
fn put_data(carrier: Carrier, bytes: &[u8], out: &mut [u8]) -> usize
    requires { length (coded carrier bytes.now) ≤ length out.old }
    ensures { Put (coded carrier bytes.now) out.old out.new result }
{
    match carrier {
        Carrier::Serial => put_serial(bytes, out),
        Carrier::Parallel => put_plain(bytes, out),
    }
}

// On the serial lead.
#[tactic(auto, using(crate::proofs::Laws::none_plain))]
fn put_serial(bytes: &[u8], out: &mut [u8]) -> usize
    requires { length (escaped bytes.now) ≤ length out.old }
    ensures { Put (escaped bytes.now) out.old out.new result }
{
    if escape::has_escape(bytes) {
        return put_bytes(bytes, out);
    }
    put_plain(bytes, out)
}

// Many data bytes, most of which are no escape bytes: in pieces, and those with an escape byte in smaller ones.
fn put_pieces(bytes: &[u8], out: &mut [u8]) -> usize
    requires { length (escaped bytes.now) ≤ length out.old }
    ensures { Put (escaped bytes.now) out.old out.new result }
{
    let mut at: usize = 0;
    let mut rest = bytes;
    while let Some((piece, behind)) = rest.split_first_chunk::<PIECE>() {
        at += put_piece(piece, &mut out[at..]);
        rest = behind;
    }
    at + put_eights(rest, &mut out[at..])
}

#[tactic(auto, using(crate::proofs::Laws::none_plain))]
fn put_piece(bytes: &[u8], out: &mut [u8]) -> usize
    requires { length (escaped bytes.now) ≤ length out.old }
    ensures { Put (escaped bytes.now) out.old out.new result }
{
    if escape::has_escape(bytes) {
        return put_eights(bytes, out);
    }
    put_plain(bytes, out)
}

fn put_eights(bytes: &[u8], out: &mut [u8]) -> usize
    requires { length (escaped bytes.now) ≤ length out.old }
    ensures { Put (escaped bytes.now) out.old out.new result }
{
    let mut at: usize = 0;
    let mut rest = bytes;
    while let Some((piece, behind)) = rest.split_first_chunk::<EIGHT>() {
        at += put_serial(piece, &mut out[at..]);
        rest = behind;
    }
    at + put_bytes(rest, &mut out[at..])
}

// Writes data bytes with each escape byte doubled.
fn put_bytes(bytes: &[u8], out: &mut [u8]) -> usize
    requires { length (escaped bytes.now) ≤ length out.old }
    ensures { Put (escaped bytes.now) out.old out.new result }
{
    let mut at: usize = 0;
    for b in bytes {
        at += put_byte(*b, &mut out[at..]);
    }
    at
}

// The second store is to the next place where the byte is the escape, else to the same: no branch waits for the byte.
fn put_byte(byte: u8, out: &mut [u8]) -> usize
    requires { length (escaped (byte ∷ [])) ≤ length out.old }
    ensures { Put (escaped (byte ∷ [])) out.old out.new result }
{
    let more = escape::is_escape(byte);
    out[0] = byte;
    out[more] = byte;
    1 + more
}

// Writes data bytes as they are.
fn put_plain(bytes: &[u8], out: &mut [u8]) -> usize
    requires { length bytes.now ≤ length out.old }
    ensures { Put bytes.now out.old out.new result }
{
    for i in 0..bytes.len() {
        out[i] = bytes[i];
    }
    bytes.len()
}
