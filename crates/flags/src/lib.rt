// The chip's six flags P V M J I Q, bits 5 to 0 of one number; the bits above them stand for nothing.
#![tactic(auto)]

ghost use Rattle.std.specs.Prelude.{◌≤◌, ◌≡◌};
ghost use Rattle.chip_rules.specs.Rules.{bit, weigh, low, switched, clears};
ghost use Rattle.flags.specs.Flags.{flags_of, FlagsAfter};

// The weights of the flags, by the application note's letters.
pub const P: u8 = 32;

pub const V: u8 = 16;

pub const M: u8 = 8;

pub const J: u8 = 4;

pub const I: u8 = 2;

pub const Q: u8 = 1;

// Whether the bit of weight `w` is set in `x`; no bit has weight 0.
pub fn has_bit(x: u64, w: u8) -> bool
    ensures { result ≡ bit x w }
{
    w != 0 && x / w as u64 % 2 == 1
}

// The weight of a bit that is set, else 0.
pub fn weight(set: bool, w: u8) -> u8
    ensures { (result ≡ weigh set w) × (result ≤ w) }
{
    if set { w } else { 0 }
}

// Bits 5 to 0 of the status of a register.
pub fn low_bits(flags: u64, register: u8) -> u8
    ensures { (result ≡ low (flags_of flags) register) × (result ≤ 63) }
{
    if register == 0 {
        let bits = flags % 64;
        bits as u8
    } else {
        63
    }
}

// Whether a control byte is the clear.
pub fn is_clear(x: u8) -> bool
    ensures { result ≡ clears x }
{
    has_bit(x as u64, 128) && has_bit(x as u64, 64)
}

// The flags after the control byte `x`.
pub fn flags_after(x: u8, flags: u64) -> u64
    ensures { FlagsAfter x flags result }
{
    let spare = flags / 64 * 64;
    let six = flag_after(x, flags, P)
        + flag_after(x, flags, V)
        + flag_after(x, flags, M)
        + flag_after(x, flags, J)
        + flag_after(x, flags, I)
        + flag_after(x, flags, Q);
    spare + six as u64
}

// What the flag of weight `w` adds to the flags after the control byte `x`, whose bit 7 says what the flag becomes if its own bit is set.
fn flag_after(x: u8, flags: u64, w: u8) -> u8
    ensures { (result ≡ weigh (switched x w (bit flags w)) w) × (result ≤ w) }
{
    if has_bit(x as u64, w) {
        weight(has_bit(x as u64, 128), w)
    } else {
        weight(has_bit(flags, w), w)
    }
}
