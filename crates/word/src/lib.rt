// A u64 as eight bytes, digit by digit of base 256, so that a change of one byte stays in a register.
#![tactic(auto)]

ghost use Rattle.std.specs.Prelude.{◌<◌, ◌≡◌};
ghost use Rattle.word.specs.Word.{power, digit, Replaced, Slid};

// The weight of digit `i`. By a shift, so that a division by it is one too.
fn power(i: u8) -> u64
    requires { i < 8 }
    ensures { result ≡ power i }
{
    let bits = 8 * i as u64;
    1 << bits
}

// Digit `i`; behind the eighth there are zeros.
pub fn digit(w: u64, i: u8) -> u8
    ensures { result ≡ digit w i }
{
    if i < 8 {
        let byte = w / power(i) % 256;
        byte as u8
    } else {
        0
    }
}

// Digit `i` replaced by `b`; there is none behind the eighth.
pub fn replaced(w: u64, i: u8, b: u8) -> u64
    ensures { Replaced w i b result }
{
    if i < 8 {
        let p = power(i);
        let old = p * digit(w, i) as u64;
        let new = p * b as u64;
        let rest = w - old;
        rest + new
    } else {
        w
    }
}

// Each of the `n` lowest digits replaced by the one above it.
pub fn slid(w: u64, n: u8) -> u64
    ensures { Slid w n result }
{
    if n < 8 {
        let p = power(n);
        let below = w / 256 % p;
        let kept = w % p;
        below + (w - kept)
    } else {
        w / 256
    }
}
