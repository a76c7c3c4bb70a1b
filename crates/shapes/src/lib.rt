// How bytes that belong together end: one byte against the number of bytes before it, and how many need no such look.
#![tactic(auto)]

ghost use Rattle.std.specs.Prelude.{◌+◌, ◌-◌, ◌≤◌, ◌<◌, ◌≡◌};
ghost use Rattle.serial_rules.specs.Body.{fixed_turn};
ghost use Rattle.serial_rules.specs.Reply.{line, text, shape_turn, longest};
ghost use Rattle.turns.specs.Turns.{turn_of};
ghost use Rattle.shapes.specs.Shapes.{shape_for, longest_shape};
ghost use Rattle.shapes.specs.Ahead.{ahead_of};

use refusal::Refusal;
use strings::Text;
use turns::Turn;

// How bytes that belong together end: so many of them; a line behind one byte; a text behind one number.
#[derive(Clone, Copy, PartialEq, Eq, Debug)]
pub enum Shape {
    Fixed(u8),
    Line,
    Text,
}

impl Shape {
    // The longest of all shapes.
    pub const LONGEST: usize = 257;

    // The most bytes that one has.
    pub fn longest(self) -> usize
        ensures { (result ≡ longest (shape_for self)) × (result ≤ longest_shape) }
    {
        match self {
            Shape::Fixed(n) => n as usize,
            Shape::Line | Shape::Text => Shape::LONGEST,
        }
    }

    // How many bytes behind the first n need more, whatever they are but an escape or a return. The first byte of a line may end it.
    pub fn ahead(self, n: usize) -> usize
        ensures { (result ≡ ahead_of (shape_for self) n) × (n < longest (shape_for self) → n + result ≤ longest_shape) }
    {
        match self {
            Shape::Fixed(k) => before_last(n, k as usize),
            Shape::Line if n != 0 => before_last(n, Shape::LONGEST),
            Shape::Line | Shape::Text => 0,
        }
    }

    // The byte b after n bytes.
    #[tactic(auto, unfolding(serial_rules::specs::Reply::shape_turn))]
    pub fn turn(self, n: usize, b: u8) -> Result<Turn, Refusal>
        ensures { turn_of result ≡ shape_turn (shape_for self) n b }
    {
        match self {
            Shape::Fixed(k) => Ok(turns::fixed_turn(n, (k as usize).saturating_sub(1))),
            Shape::Line => line_turn(n, b),
            Shape::Text => text_turn(n, b),
        }
    }
}

// How many of k bytes stand behind the first n and before the last.
fn before_last(n: usize, k: usize) -> usize
    ensures { result ≡ k - 1 - n }
{
    k.saturating_sub(1).saturating_sub(n)
}

// A byte of a line. Bit 7 of the first one says that there is none.
#[tactic(auto, unfolding(serial_rules::specs::Reply::shape_turn))]
fn line_turn(n: usize, b: u8) -> Result<Turn, Refusal>
    ensures { turn_of result ≡ shape_turn line n b }
{
    if n != 0 {
        turns::string_turn(n - 1, b)
    } else if b / 128 % 2 == 1 {
        Ok(Turn::Done)
    } else {
        Ok(Turn::More)
    }
}

// A byte of a text behind its number; &00 ends it.
#[tactic(auto, unfolding(serial_rules::specs::Reply::shape_turn))]
fn text_turn(n: usize, b: u8) -> Result<Turn, Refusal>
    ensures { turn_of result ≡ shape_turn text n b }
{
    if n == 0 {
        Ok(Turn::More)
    } else if b == Text::ZERO {
        Ok(Turn::Done)
    } else if n <= Text::LIMIT {
        Ok(Turn::More)
    } else {
        Err(Refusal::TooLong)
    }
}
