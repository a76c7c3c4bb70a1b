// The strings of the protocol.
#![tactic(auto)]

ghost use Rattle.std.specs.Prelude.{◌≡◌};
ghost use Rattle.serial_rules.specs.Call.{has_return};
ghost use Rattle.serial_rules.specs.Session.{has_zero};
ghost use Rattle.strings.specs.Text.{string_from, name_of, has_byte};

use refusal::Refusal;

// The strings of the protocol.
#[derive(Clone, Copy)]
pub struct Text;

impl Text {
    // The longest string.
    pub const LIMIT: usize = 255;

    // The byte that ends a string.
    pub const RETURN: u8 = 0x0D;

    // The byte that ends an error's text.
    pub const ZERO: u8 = 0x00;

    // The block before OSFILE's name.
    pub const FILE_BLOCK: usize = 16;
}

// The length of the name in a body of OSFILE; it starts after the block.
pub fn file_name(body: &[u8]) -> Result<usize, Refusal>
    ensures { result ≡ name_of body.now }
{
    if body.len() < Text::FILE_BLOCK {
        return Err(Refusal::BadField);
    }
    string_length(&body[Text::FILE_BLOCK..])
}

// The length of the string at the start of the tail of a body, without the &0D that ends it.
pub fn string_length(tail: &[u8]) -> Result<usize, Refusal>
    ensures { result ≡ string_from 0 tail.now }
{
    for (i, b) in tail.iter().enumerate() {
        if *b == Text::RETURN {
            return Ok(i);
        }
        if Text::LIMIT <= i {
            return Err(Refusal::TooLong);
        }
    }
    Err(Refusal::BadField)
}

// Whether a string holds the byte that would end it, and whether an error's text does.
pub fn has_return(text: &[u8]) -> bool
    ensures { result ≡ has_return text.now }
{
    has_byte(text, Text::RETURN)
}

pub fn has_zero(text: &[u8]) -> bool
    ensures { result ≡ has_zero text.now }
{
    has_byte(text, Text::ZERO)
}

// Whether a byte stands in a text. The loop has no other way out, so that it tests many bytes at once.
pub fn has_byte(text: &[u8], byte: u8) -> bool
    ensures { result ≡ has_byte byte text.now }
{
    let mut found = false;
    for b in text {
        found |= *b == byte;
    }
    found
}
