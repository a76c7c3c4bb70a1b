// Whether the text of a played script fits into so many bytes.
#![tactic(auto)]

ghost use Rattle.std.specs.Prelude.{◌+◌, ◌*◌, ◌≤◌, ◌≡◌, ◌&&◌, leb, length};
ghost use Rattle.script_lines.specs.Text.{line_of, lines_of, end_of, text_of};
ghost use Rattle.script_lines.specs.Fields.{Counted};

// Whether `results` holds three bytes for each of `played` records, and their text fits into `room` bytes.
pub fn text_fits(results: &[u8], played: usize, answer: u8, room: usize) -> bool
    ensures { result ≡ (leb (3 * played) (length results.now) && leb (length (text_of results.now played answer)) room) }
{
    played <= results.len() / 3 && lines_fit(results, played, end_length(played, answer), room)
}

// Whether the lines of n records and `more` bytes after them fit into `room` bytes. What is left of the room is counted down, so that
// no sum overflows.
fn lines_fit(results: &[u8], n: usize, more: usize, room: usize) -> bool
    requires { 3 * n ≤ length results.now }
    ensures { result ≡ leb (length (lines_of n results.now) + more) room }
{
    let Some(mut left) = room.checked_sub(more) else {
        return false;
    };
    for i in 0..n {
        let at = 3 * i;
        let line = line_length(results[at], results[at + 1], results[at + 2]);
        if left < line {
            return false;
        }
        left -= line;
    }
    true
}

fn line_length(answer: u8, byte: u8, line: u8) -> usize
    ensures { result ≡ length (line_of answer byte line) }
{
    digit_count(answer as usize) + digit_count(byte as usize) + digit_count(line as usize) + 3
}

fn end_length(played: usize, answer: u8) -> usize
    ensures { result ≡ length (end_of played answer) }
{
    digit_count(played) + digit_count(answer as usize) + 6
}

// How many digits a number has in decimal.
fn digit_count(n: usize) -> usize
    ensures { Counted n result }
{
    if n < 10 { 1 } else { digit_count(n / 10) + 1 }
}
