// The two carriers of requests and replies.
#![tactic(auto)]

ghost use Rattle.std.specs.Prelude.{◌≡◌};
ghost use Rattle.serial_rules.specs.Call.{style_ok};
ghost use Rattle.carrier.specs.Carriers.{carrier_of, carrier_at, carrier_from, carrier_number};

use refusal::Refusal;

// The serial lead, with the escape layer and marks, or the parallel side, with plain codes and bodies.
#[derive(Clone, Copy, PartialEq, Eq, Debug)]
pub enum Carrier {
    Serial = 0,
    Parallel = 1,
}

impl TryFrom<u8> for Carrier {
    type Error = Refusal;

    // The carrier of a number; another number is a field that breaks its rule.
    fn try_from(n: u8) -> Result<Carrier, Refusal>
        ensures { result ≡ carrier_from n }
    {
        match n {
            0 => Ok(Carrier::Serial),
            1 => Ok(Carrier::Parallel),
            _ => Err(Refusal::BadField),
        }
    }
}

impl Carrier {
    // The highest number of a carrier.
    pub const LAST: u8 = 1;

    // The carrier of a number: 0 is the serial lead, 1 the parallel side; a number above that falls to the last.
    pub fn at(n: u8) -> Carrier
        ensures { result ≡ carrier_at n }
    {
        match n {
            0 => Carrier::Serial,
            _ => Carrier::Parallel,
        }
    }

    // The number of a carrier.
    pub fn number(self) -> u8
        ensures { result ≡ carrier_number self }
    {
        self as u8
    }

    // Whether a style is one of the carrier's: 0 to 3 on the serial lead, 0 on the parallel side.
    pub fn has_style(self, style: u8) -> bool
        ensures { result ≡ style_ok (carrier_of self) style }
    {
        match self {
            Carrier::Serial => style <= 3,
            Carrier::Parallel => style == 0,
        }
    }
}
