// Where the fields of a body or of a reply lie: a byte by its place, the last byte, and a place that the bytes may not reach.
#![tactic(auto)]

ghost use Rattle.std.specs.Prelude.{◌≡◌, take, drop};
ghost use Rattle.serial_rules.specs.Fields.{at, last};
ghost use Rattle.places.specs.Part.{none, PartDone, fields_at};

// The byte at an index, 0 where there is none.
pub fn byte_at(bytes: &[u8], i: usize) -> u8
    ensures { result ≡ at bytes.now i }
{
    bytes.get(i).copied().unwrap_or(0)
}

// The last byte, 0 where there is none.
pub fn last_byte(bytes: &[u8]) -> u8
    ensures { result ≡ last bytes.now }
{
    bytes.last().copied().unwrap_or(0)
}

// A part of bytes: its place and its length.
#[derive(Clone, Copy)]
pub struct Part {
    pub start: usize,
    pub length: usize,
}

impl Part {
    // No part.
    pub const NONE: Part = Part {
        start: 0,
        length: 0,
    };
}

// The part behind the first `before` of the bytes, at most `most` of them.
pub fn part_behind(bytes: &[u8], before: usize, most: usize) -> Part
    ensures { PartDone bytes.now before (take most (drop before bytes.now)) result }
{
    let start = before.min(bytes.len());
    Part {
        start,
        length: most.min(bytes.len() - start),
    }
}

// The fields of a request or of a reply: what it says in numbers, and where its block and its string lie in the bytes.
#[derive(Clone, Copy)]
pub struct Fields<T> {
    pub said: T,
    pub block: Part,
    pub text: Part,
}

impl<T> Fields<T> {
    // With numbers alone.
    pub fn numbers(said: T) -> Fields<T>
        ensures { result ≡ fields_at said none none }
    {
        Fields {
            said,
            block: Part::NONE,
            text: Part::NONE,
        }
    }

    // With a block.
    pub fn with_block(said: T, block: Part) -> Fields<T>
        ensures { result ≡ fields_at said block none }
    {
        Fields {
            block,
            ..Fields::numbers(said)
        }
    }

    // With a string.
    pub fn with_text(said: T, text: Part) -> Fields<T>
        ensures { result ≡ fields_at said none text }
    {
        Fields {
            text,
            ..Fields::numbers(said)
        }
    }
}
