// What the flat records for callers in C share: a flag kept as a number, and what a writer or a scan for a name gives.
#![tactic(auto)]

ghost use Rattle.std.specs.Prelude.{◌≡◌};
ghost use Rattle.flat.specs.Flat.{flag_number, flat_written};

use refusal::Refusal;

// What a writer gives: the number of its answer, and on 0 the length of the encoding.
#[repr(C)]
#[derive(Clone, Copy)]
pub struct FlatWritten {
    pub length: usize,
    pub answer: u8,
}

// A name found in a body: the number of the answer, and on 0 its length.
pub type FlatName = FlatWritten;

impl From<Result<usize, Refusal>> for FlatWritten {
    // A length, or the number of a refusal.
    fn from(written: Result<usize, Refusal>) -> FlatWritten
        ensures { result ≡ flat_written written }
    {
        match written {
            Ok(length) => FlatWritten { length, answer: 0 },
            Err(refusal) => FlatWritten {
                length: 0,
                answer: refusal.number(),
            },
        }
    }
}

// A flag that is set keeps the number given where that one says so.
pub fn flag_number(given: u8, set: bool) -> u8
    ensures { result ≡ flag_number given set }
{
    if set { given.max(1) } else { 0 }
}
