// The exports that play a script and write its text.
#![tactic(auto)]

ghost use Rattle.script.specs.Script.{PlayDone};
ghost use Rattle.script_text.specs.Text.{TextDone};

use chip::Chip;
use script::Played;

// Plays a script: see `script::play`.
pub fn tube_play(chip: Chip, script: &[u8], limit: usize, results: &mut [u8]) -> Played
    ensures { PlayDone chip script.now limit results.old result results.new }
{
    script::play(chip, script, limit, results)
}

// The text of a played script: see `script_text::write_text`.
pub fn tube_text(results: &[u8], played: usize, answer: u8, out: &mut [u8]) -> usize
    ensures { TextDone results.now played answer out.old result out.new }
{
    script_text::write_text(results, played, answer, out)
}
