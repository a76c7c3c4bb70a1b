// The whole text that a script gives: played and written in one.
#![tactic(auto)]

ghost use Rattle.transcript.specs.Transcript.{TranscriptDone};

use chip::Chip;

// The records that are played of a script at most.
const LIMIT: usize = 4096;

// Plays a script on a chip and writes its text into `out`: its length; or 0, with nothing written, where `out` is too short for it. A buffer
// of 49,165 bytes is always enough.
pub fn transcript(chip: Chip, script: &[u8], out: &mut [u8]) -> usize
    ensures { TranscriptDone chip script.now out.old result out.new }
{
    let mut results = [0u8; 3 * LIMIT];
    let end = script::play(chip, script, LIMIT, &mut results);
    script_text::write_text(&results, end.played, end.answer, out)
}
