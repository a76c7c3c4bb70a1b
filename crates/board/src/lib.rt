// The chip for callers in C and Rust: one access entry that is lent the record, the rest by value. Answers are numbers.
#![tactic(auto)]

ghost use Rattle.std.specs.Prelude.{◌≡◌};
ghost use Rattle.chip_rules.specs.History.{line_value};
ghost use Rattle.chip.specs.Record.{view, blank};
ghost use Rattle.chip.specs.Promise.{access_of, AccessDone, ResetDone};
ghost use Rattle.board.specs.Board.{writes, replied};

use chip::Chip;

// Document 01's number of the answer, and the byte.
#[repr(C)]
#[derive(Clone, Copy)]
pub struct Reply {
    pub answer: u8,
    pub byte: u8,
}

// The thin entry: the chip is lent, accessed by value and stored. Operation 0 reads, any other number writes.
pub fn tube_access(chip: &mut Chip, side: u8, offset: u8, operation: u8, byte: u8) -> Reply
    ensures { AccessDone chip.old (access_of side offset (writes operation) byte) (replied result) chip.new }
{
    let a = chip.access(side, offset, operation != 0, byte);
    *chip = a.chip;
    Reply {
        answer: a.number(),
        byte: a.byte(),
    }
}

// A fresh chip: see `chip::Chip::new`.
pub fn tube_new() -> Chip
    ensures { result ≡ blank }
{
    Chip::new()
}

// A reset: see `chip::Chip::reset`.
pub fn tube_reset(chip: Chip) -> Chip
    ensures { ResetDone chip result }
{
    chip.reset()
}

// The line value: see `chip::Chip::lines`.
pub fn tube_lines(chip: Chip) -> u8
    ensures { result ≡ line_value (view chip) }
{
    chip.lines()
}
