// The exports of the chip, thin: those of `board`, for C.
#![tactic(auto)]

ghost use Rattle.std.specs.Prelude.{◌≡◌};
ghost use Rattle.chip_rules.specs.History.{line_value};
ghost use Rattle.chip.specs.Record.{view, blank};
ghost use Rattle.chip.specs.Promise.{access_of, AccessDone, ResetDone};
ghost use Rattle.board.specs.Board.{writes, replied};

use board::Reply;
use chip::Chip;

// One access: see `board::tube_access`.
#[unsafe(no_mangle)]
pub extern "C" fn tube_access(
    chip: &mut Chip,
    side: u8,
    offset: u8,
    operation: u8,
    byte: u8,
) -> Reply
    ensures { AccessDone chip.old (access_of side offset (writes operation) byte) (replied result) chip.new }
{
    board::tube_access(chip, side, offset, operation, byte)
}

// A fresh chip: see `board::tube_new`.
#[unsafe(no_mangle)]
pub extern "C" fn tube_new() -> Chip
    ensures { result ≡ blank }
{
    board::tube_new()
}

// A reset: see `board::tube_reset`.
#[unsafe(no_mangle)]
pub extern "C" fn tube_reset(chip: Chip) -> Chip
    ensures { ResetDone chip result }
{
    board::tube_reset(chip)
}

// The line value: see `board::tube_lines`.
#[unsafe(no_mangle)]
pub extern "C" fn tube_lines(chip: Chip) -> u8
    ensures { result ≡ line_value (view chip) }
{
    board::tube_lines(chip)
}
