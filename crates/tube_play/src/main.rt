// Plays the script of standard input on a fresh chip and writes its text to standard output.
#![tactic(auto)]

ghost use Rattle.std.specs.Prelude.{◌≤◌, length, take};
ghost use Rattle.std.specs.Io.KnownBytes.{Consumes};

use chip::Chip;
use std::io;
use std::io::{Read, Write};

// Reads until the script is full or the input ends; returns how many bytes came, which are the next of the input. A failed read counts as the
// end of the input. Each turn but the last reads one byte at least.
fn read_script<R: Read>(input: &mut R, script: &mut [u8]) -> usize
    ensures within { result ≤ length script.new }
    ensures bytes { Consumes (R.remaining input.old) (R.remaining input.new) (take result script.new) }
{
    let mut got = 0;
    for _ in 0..script.len() {
        let Ok(n) = input.read(&mut script[got..]) else {
            break;
        };
        if n == 0 {
            break;
        }
        got += n;
    }
    got
}

fn main(rt: HostRuntime) -> io::Result<()> {
    // One record more than is played, so that bytes beyond the limit are seen.
    let mut script = [0u8; 12291];
    let got = read_script(&mut rt.stdin(), &mut script);
    // The text of any script fits.
    let mut text = [0u8; 49165];
    let n = transcript::transcript(Chip::new(), &script[..got], &mut text);
    rt.stdout().write_all(&text[..n])
}
