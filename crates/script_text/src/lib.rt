// The text of a played script: a line for each record, and the last line.
#![tactic(auto)]

ghost use Rattle.std.specs.Prelude.{◌+◌, ◌*◌, ◌≤◌, [], ◌∷◌, length};
ghost use Rattle.script_lines.specs.Text.{decimal, line_of, lines_of, end_of};
ghost use Rattle.script_lines.specs.Fields.{end_word, field_of};
ghost use Rattle.script_text.specs.Text.{TextDone};
ghost use Rattle.script_text.specs.Write.{Wrote};

// The text of `played` results of three bytes each and the last line, written into `out`: its length; or 0, with nothing written,
// where `out` is too short for the whole text or `results` holds fewer.
pub fn write_text(results: &[u8], played: usize, answer: u8, out: &mut [u8]) -> usize
    ensures { TextDone results.now played answer out.old result out.new }
{
    if script_lines::text_fits(results, played, answer, out.len()) {
        let at = put_lines(results, played, out);
        return put_end(out, at, played, answer);
    }
    0
}

// The writers below put their text into `out`, from `at` on where they have it, and answer the place behind it.

// The lines of n records.
fn put_lines(results: &[u8], n: usize, out: &mut [u8]) -> usize
    requires records { 3 * n ≤ length results.now }
    requires room { length (lines_of n results.now) ≤ length out.old }
    ensures { Wrote 0 (lines_of n results.now) out.old out.new result }
{
    let mut at = 0;
    for i in 0..n {
        let from = 3 * i;
        at = put_line(out, at, results[from], results[from + 1], results[from + 2]);
    }
    at
}

fn put_line(out: &mut [u8], at: usize, answer: u8, byte: u8, line: u8) -> usize
    requires { at + length (line_of answer byte line) ≤ length out.old }
    ensures { Wrote at (line_of answer byte line) out.old out.new result }
{
    let a = put_field(out, at, answer as usize, b' ');
    let b = put_field(out, a, byte as usize, b' ');
    put_field(out, b, line as usize, b'\n')
}

// The last line.
fn put_end(out: &mut [u8], at: usize, played: usize, answer: u8) -> usize
    requires { at + length (end_of played answer) ≤ length out.old }
    ensures { Wrote at (end_of played answer) out.old out.new result }
{
    let a = put_end_word(out, at);
    let b = put_field(out, a, played, b' ');
    put_field(out, b, answer as usize, b'\n')
}

fn put_end_word(out: &mut [u8], at: usize) -> usize
    requires { at + 4 ≤ length out.old }
    ensures { Wrote at end_word out.old out.new result }
{
    out[at..at + 4].copy_from_slice(b"end ");
    at + 4
}

// A number in decimal, and the byte that ends it.
fn put_field(out: &mut [u8], at: usize, n: usize, end: u8) -> usize
    requires { at + length (field_of n end) ≤ length out.old }
    ensures { Wrote at (field_of n end) out.old out.new result }
{
    let a = put_digits(out, at, n);
    put_byte(out, a, end)
}

fn put_digits(out: &mut [u8], at: usize, n: usize) -> usize
    requires { at + length (decimal n) ≤ length out.old }
    ensures { Wrote at (decimal n) out.old out.new result }
{
    let digit = b'0' + (n % 10) as u8;
    if n < 10 {
        return put_byte(out, at, digit);
    }
    let a = put_digits(out, at, n / 10);
    put_byte(out, a, digit)
}

fn put_byte(out: &mut [u8], at: usize, byte: u8) -> usize
    requires { at + 1 ≤ length out.old }
    ensures { Wrote at (byte ∷ []) out.old out.new result }
{
    out[at] = byte;
    at + 1
}
