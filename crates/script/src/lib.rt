// Plays a script of accesses: records of three bytes, and three result bytes for each.
#![tactic(auto)]

ghost use Rattle.std.specs.Prelude.{◌*◌, ◌≤◌, length};
ghost use Rattle.script.specs.Script.{event_of, StepDone, RecordsDone, PlayDone};

use chip::Chip;
use script_end::Ending;

// What one record gives: the number of the answer, the byte, the line value after it, and the chip.
#[derive(Clone, Copy)]
pub struct Stepped {
    pub answer: u8,
    pub byte: u8,
    pub lines: u8,
    pub chip: Chip,
}

// What a script gives: the records played, the final answer and the chip after the last of them.
#[repr(C)]
#[derive(Clone, Copy)]
pub struct Played {
    pub played: usize,
    pub answer: u8,
    pub chip: Chip,
}

// Plays the records of a script, at most `limit`, on a chip. The results of each record played go into `results`, three bytes each; where
// they do not fit, nothing is played and the answer is 8.
pub fn play(chip: Chip, script: &[u8], limit: usize, results: &mut [u8]) -> Played
    ensures { PlayDone chip script.now limit results.old result results.new }
{
    let n = script_end::record_count(script.len(), limit);
    if results.len() < 3 * n {
        return Played {
            played: 0,
            answer: Ending::NoRoom.number(),
            chip,
        };
    }
    let after = play_records(chip, script, n, results);
    let ending = Ending::of_rest(script.len() - 3 * n, limit - n);
    Played {
        played: n,
        answer: ending.number(),
        chip: after,
    }
}

// One record: kinds 0 to 3 are the accesses, 4 is the reset, and every other is an access of a side that does not exist.
pub fn step(chip: Chip, kind: u8, offset: u8, byte: u8) -> Stepped
    ensures { StepDone chip (event_of kind offset byte) result }
{
    if kind == 4 {
        let chip = chip.reset();
        return Stepped {
            answer: 0,
            byte: 0,
            lines: chip.lines(),
            chip,
        };
    }
    let a = chip.access(kind / 2, offset, kind % 2 == 1, byte);
    Stepped {
        answer: a.number(),
        byte: a.byte(),
        lines: a.chip.lines(),
        chip: a.chip,
    }
}

// Plays the first `n` records, which are there, into three result bytes each, for which there is room.
fn play_records(mut chip: Chip, script: &[u8], n: usize, results: &mut [u8]) -> Chip
    requires { (3 * n ≤ length script.now) × (3 * n ≤ length results.old) }
    ensures { RecordsDone chip script.now n results.old result results.new }
{
    for i in 0..n {
        let at = 3 * i;
        let s = step(chip, script[at], script[at + 1], script[at + 2]);
        results[at] = s.answer;
        results[at + 1] = s.byte;
        results[at + 2] = s.lines;
        chip = s.chip;
    }
    chip
}
