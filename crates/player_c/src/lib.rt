// The exports that play a script and write its text, thin: those of `player`, for C.
#![tactic(auto)]

ghost use Rattle.script.specs.Script.{PlayDone};
ghost use Rattle.script_text.specs.Text.{TextDone};

use chip::Chip;
use script::Played;

// Plays a script: see `player::tube_play`.
#[unsafe(no_mangle)]
pub extern "C" fn tube_play(chip: Chip, script: &[u8], limit: usize, results: &mut [u8]) -> Played
    ensures { PlayDone chip script.now limit results.old result results.new }
{
    player::tube_play(chip, script, limit, results)
}

// The text of a played script: see `player::tube_text`.
#[unsafe(no_mangle)]
pub extern "C" fn tube_text(results: &[u8], played: usize, answer: u8, out: &mut [u8]) -> usize
    ensures { TextDone results.now played answer out.old result out.new }
{
    player::tube_text(results, played, answer, out)
}
