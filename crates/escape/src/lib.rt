// The escape layer of the serial protocol.
#![tactic(auto)]

ghost use Rattle.std.specs.Prelude.{◌≤◌, ◌≡◌, ◌||◌, eqb, ltb, length};
ghost use Rattle.serial_rules.specs.Escape.{escape, piece_of, escapes};
ghost use Rattle.escape.specs.Layer.{piece_for, is_escape};
ghost use Rattle.escape.specs.Units.{unit_at, unit_for};

// A raw byte, seen through the escape layer: an escape that needs the next byte, a data byte, or a mark.
#[derive(Clone, Copy)]
pub enum Piece {
    Pending,
    Data(u8),
    Mark(u8),
}

// One data byte or mark of raw bytes, and the place behind it; or they end before it is whole.
#[derive(Clone, Copy)]
pub enum Unit {
    Gone,
    Data(u8, usize),
    Mark(u8, usize),
}

impl Piece {
    // The escape byte.
    pub const ESCAPE: u8 = 0x9B;

    // One raw byte, after an escape or not.
    pub fn read(seen: bool, raw: u8) -> Piece
        ensures { piece_for result ≡ piece_of seen raw }
    {
        if seen {
            if raw == Piece::ESCAPE {
                return Piece::Data(raw);
            }
            return Piece::Mark(raw);
        }
        if raw == Piece::ESCAPE {
            return Piece::Pending;
        }
        Piece::Data(raw)
    }
}

// The data byte or mark at a place, where no escape was seen before it.
#[tactic(auto, unfolding(crate::specs::Units::unit_at))]
pub fn unit_at(raw: &[u8], i: usize) -> Unit
    ensures { unit_for result ≡ unit_at raw.now i }
{
    let Some(&first) = raw.get(i) else {
        return Unit::Gone;
    };
    if first != Piece::ESCAPE {
        return Unit::Data(first, i + 1);
    }
    let j = i + 1;
    let Some(&second) = raw.get(j) else {
        return Unit::Gone;
    };
    if second == Piece::ESCAPE {
        return Unit::Data(second, j + 1);
    }
    Unit::Mark(second, j + 1)
}

// The bytes of a piece that are counted in one byte.
const PIECE: usize = 224;

// How many of the bytes are escape bytes: by pieces, so that many bytes are counted at once.
#[tactic(auto, using(crate::proofs::Laws::pieces))]
pub fn count_escapes(bytes: &[u8]) -> usize
    ensures { result ≡ escapes bytes.now }
{
    let mut n: usize = 0;
    let mut rest = bytes;
    while let Some((piece, behind)) = rest.split_first_chunk::<PIECE>() {
        n += usize::from(count_piece(piece));
        rest = behind;
    }
    n + usize::from(count_piece(rest))
}

#[tactic(auto, using(crate::proofs::Laws::counting))]
fn count_piece(bytes: &[u8]) -> u8
    requires { length bytes.now ≤ 224 }
    ensures { result ≡ escapes bytes.now }
{
    let mut n: u8 = 0;
    for b in bytes {
        n += u8::from(*b == Piece::ESCAPE);
    }
    n
}

// One for an escape byte, else none.
pub fn is_escape(byte: u8) -> usize
    ensures { (result ≡ is_escape byte) × (result ≤ 1) }
{
    usize::from(byte == Piece::ESCAPE)
}

// Whether one of the bytes is an escape byte. The loop has no other way out, so that it tests many bytes at once.
#[tactic(auto, using(crate::proofs::Laws::searching))]
pub fn has_escape(bytes: &[u8]) -> bool
    ensures { result ≡ ltb 0 (escapes bytes.now) }
{
    let mut found = false;
    for b in bytes {
        found |= *b == Piece::ESCAPE;
    }
    found
}
