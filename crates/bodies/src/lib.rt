// One data byte b of a request's body, against the bytes s, or n bytes, before it.
#![tactic(auto)]

ghost use Rattle.std.specs.Prelude.{◌≡◌};
ghost use Rattle.serial_rules.specs.Body.{checked_turn, word_turn, find_turn, name_turn, ended, file_turn, body_turn, longest_body};
ghost use Rattle.turns.specs.Turns.{turn_of};

use refusal::Refusal;
use strings::Text;
use turns::Turn;

// A byte of a body whose last byte has the index `last` and has to pass a test.
fn checked_turn(n: usize, last: usize, ok: bool) -> Result<Turn, Refusal>
    ensures { turn_of result ≡ checked_turn n last ok }
{
    if n < last {
        Ok(Turn::More)
    } else if ok {
        Ok(Turn::Done)
    } else {
        Err(Refusal::BadField)
    }
}

// OSWORD: A, which is not 0, the number of bytes, the bytes, the number wanted.
fn word_turn(s: &[u8], b: u8) -> Result<Turn, Refusal>
    ensures { turn_of result ≡ word_turn s.now b }
{
    match s {
        [] if b == 0 => Err(Refusal::BadField),
        [] | [_] => Ok(Turn::More),
        [_, length, block @ ..] => Ok(turns::fixed_turn(block.len(), *length as usize)),
    }
}

// OSFIND: 0 and Y, or A and a string.
fn find_turn(s: &[u8], b: u8) -> Result<Turn, Refusal>
    ensures { turn_of result ≡ find_turn s.now b }
{
    match s {
        [] => Ok(Turn::More),
        [0, ..] => Ok(Turn::Done),
        [_, name @ ..] => turns::string_turn(name.len(), b),
    }
}

// A byte of a string that another field follows.
fn name_turn(n: usize, b: u8) -> Result<Turn, Refusal>
    ensures { turn_of result ≡ name_turn n b }
{
    if n < Text::LIMIT || (n == Text::LIMIT && b == Text::RETURN) {
        Ok(Turn::More)
    } else {
        Err(Refusal::TooLong)
    }
}

// Whether the last byte ends a string.
pub fn name_ended(s: &[u8]) -> bool
    ensures { result ≡ ended s.now }
{
    match s {
        [] => false,
        [.., last] => *last == Text::RETURN,
    }
}

// OSFILE: 16 bytes, a string, A.
fn file_turn(s: &[u8], b: u8) -> Result<Turn, Refusal>
    ensures { turn_of result ≡ file_turn s.now b }
{
    if s.len() < Text::FILE_BLOCK {
        return Ok(Turn::More);
    }
    let name = &s[Text::FILE_BLOCK..];
    if name_ended(name) {
        Ok(Turn::Done)
    } else {
        name_turn(name.len(), b)
    }
}

// The turn of a data byte, by the request's code.
#[tactic(auto, unfolding(serial_rules::specs::Body::body_turn))]
pub fn body_turn(code: u8, s: &[u8], b: u8) -> Result<Turn, Refusal>
    ensures { turn_of result ≡ body_turn code s.now b }
{
    let n = s.len();
    match code {
        0x02 => turns::string_turn(n, b),
        0x04 => checked_turn(n, 1, b < 0x80),
        0x06 => checked_turn(n, 2, 0x80 <= b),
        0x08 => word_turn(s, b),
        0x0A => Ok(turns::fixed_turn(n, 4)),
        0x0C => Ok(turns::fixed_turn(n, 5)),
        0x0E => Ok(turns::fixed_turn(n, 0)),
        0x10 => Ok(turns::fixed_turn(n, 1)),
        0x12 => find_turn(s, b),
        0x14 => file_turn(s, b),
        0x16 => Ok(turns::fixed_turn(n, 13)),
        _ => Err(Refusal::NotCarried),
    }
}

// The length of the longest body of a code; 0 for a code without a body. OSFILE's is the longest of all: 16 bytes, a string of 255, its
// return, A.
#[tactic(auto, unfolding(serial_rules::specs::Body::longest_body))]
pub fn longest_body(code: u8) -> usize
    ensures { result ≡ longest_body code }
{
    match code {
        0x02 => 256,
        0x04 => 2,
        0x06 => 3,
        0x08 => 258,
        0x0A => 5,
        0x0C => 6,
        0x0E => 1,
        0x10 => 2,
        0x12 => 257,
        0x14 => 273,
        0x16 => 14,
        _ => 0,
    }
}
