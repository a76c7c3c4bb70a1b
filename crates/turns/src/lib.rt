// One byte of bytes that belong together, against the number n of bytes before it; and runs of bytes that need no such look.
#![tactic(auto)]

ghost use Rattle.std.specs.Prelude.{◌≡◌};
ghost use Rattle.std.specs.List.{prefix_len};
ghost use Rattle.serial_rules.specs.Body.{fixed_turn, string_turn};
ghost use Rattle.turns.specs.Turns.{turn_of};
ghost use Rattle.turns.specs.Plain.{plain, is_data, run_of, PlainDone};

use escape::Piece;
use refusal::Refusal;
use strings::Text;

// What a byte that is taken does: more are needed, or it is the last. A byte that is not taken has a refusal in its place.
#[derive(Clone, Copy, PartialEq, Eq, Debug)]
pub enum Turn {
    More,
    Done,
}

// A byte of a string that ends the whole.
pub fn string_turn(n: usize, b: u8) -> Result<Turn, Refusal>
    ensures { turn_of result ≡ string_turn n b }
{
    if b == Text::RETURN {
        Ok(Turn::Done)
    } else if n < Text::LIMIT {
        Ok(Turn::More)
    } else {
        Err(Refusal::TooLong)
    }
}

// A byte where the last one has the index `last`.
pub fn fixed_turn(n: usize, last: usize) -> Turn
    ensures { turn_of (Ok result) ≡ fixed_turn n last }
{
    if n < last { Turn::More } else { Turn::Done }
}

// Copies the bytes at the start of `raw` that are neither an escape nor a return, as far as `out` goes; returns how many.
pub fn copy_plain(raw: &[u8], out: &mut [u8]) -> usize
    ensures { PlainDone raw.now out.old result out.new }
{
    let most = raw.len().min(out.len());
    for i in 0..most {
        let b = raw[i];
        if !is_plain(b) {
            return i;
        }
        out[i] = b;
    }
    most
}

// How many bytes at the start of `raw` are not an escape, at most so many. Most often all of them are not, which is tested many bytes at once.
pub fn data_ahead(raw: &[u8], most: usize) -> usize
    ensures { result ≡ run_of is_data most raw.now }
{
    let ahead = &raw[..most.min(raw.len())];
    if !escape::has_escape(ahead) {
        return ahead.len();
    }
    before_escape(ahead)
}

// How many bytes stand before the first escape.
fn before_escape(bytes: &[u8]) -> usize
    ensures { result ≡ prefix_len is_data bytes.now }
{
    bytes.iter().take_while(|b| **b != Piece::ESCAPE).count()
}

// Whether a byte is neither an escape nor a return.
pub fn is_plain(b: u8) -> bool
    ensures { result ≡ plain b }
{
    b != Piece::ESCAPE && b != Text::RETURN
}
