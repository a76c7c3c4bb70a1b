// The refusals of readers, links and writers, by document 01's numbers.
#![tactic(auto)]

ghost use Rattle.std.specs.Prelude.{◌≡◌};
ghost use Rattle.refusal.specs.Refusals.{number};

// What is refused: a mark or code that is not carried, or a number that is no call; a mark inside a request or an action, or an end with no
// transfer open; a string or a text over 255 bytes; a byte to a stopped reader or link, or one over its limits; too little room; a field that
// breaks its rule; a call begun while another waits; a transfer inside four others.
#[derive(Clone, Copy, PartialEq, Eq, Debug)]
pub enum Refusal {
    NotCarried = 4,
    Misplaced = 5,
    TooLong = 6,
    Stopped = 7,
    NoRoom = 8,
    BadField = 9,
    Waiting = 12,
    TooDeep = 13,
}

impl Refusal {
    // Document 01's number of it.
    pub fn number(self) -> u8
        ensures { result ≡ number self }
    {
        self as u8
    }
}
