// How many bytes of a request's body stand in the middle of a field, behind the bytes s, or n bytes, before them.
#![tactic(auto)]

ghost use Rattle.std.specs.Prelude.{◌-◌, ◌≡◌};
ghost use Rattle.middles.specs.Ahead.{word_ahead, find_ahead, file_ahead, ahead_in};

use strings::Text;

// How many bytes behind s stand in the middle of their field: they need more, whatever they are but an escape or a return.
#[tactic(auto, unfolding(crate::specs::Ahead::ahead_in))]
pub fn ahead(code: u8, s: &[u8]) -> usize
    ensures { result ≡ ahead_in code s.now }
{
    let n = s.len();
    match code {
        0x02 => up_to(n, Text::LIMIT),
        0x08 => word_ahead(s),
        0x0A => up_to(n, 4),
        0x0C => up_to(n, 5),
        0x12 => find_ahead(s),
        0x14 => file_ahead(s),
        0x16 => up_to(n, 13),
        _ => 0,
    }
}

// How many bytes stand behind the first n, up to the index `last`.
fn up_to(n: usize, last: usize) -> usize
    ensures { result ≡ last - n }
{
    last.saturating_sub(n)
}

// In OSWORD's block.
fn word_ahead(s: &[u8]) -> usize
    ensures { result ≡ word_ahead s.now }
{
    match s {
        [_, length, block @ ..] => up_to(block.len(), *length as usize),
        _ => 0,
    }
}

// In the string of an OSFIND that opens.
fn find_ahead(s: &[u8]) -> usize
    ensures { result ≡ find_ahead s.now }
{
    match s {
        [] | [0, ..] => 0,
        _ => up_to(s.len(), Text::LIMIT + 1),
    }
}

// In OSFILE's block, and in its name.
fn file_ahead(s: &[u8]) -> usize
    ensures { result ≡ file_ahead s.now }
{
    let n = s.len();
    if n < Text::FILE_BLOCK {
        Text::FILE_BLOCK - n
    } else if bodies::name_ended(&s[Text::FILE_BLOCK..]) {
        0
    } else {
        up_to(n, Text::LIMIT + Text::FILE_BLOCK)
    }
}
