// The stepwise reader of requests: one raw byte at a time, the body so far in bytes that the caller lends.
#![tactic(auto)]

ghost use Rattle.std.specs.Prelude.{◌≡◌, true};
ghost use Rattle.escape.specs.Layer.{piece_for};
ghost use Rattle.serial_rules.specs.Reader.{piece_outside, piece_inside, starts};
ghost use Rattle.serial_rules.specs.Escape.{mark, data_byte};
ghost use Rattle.carrier.specs.Carriers.{carrier_of};
ghost use Rattle.request_reader.specs.View.{outside_limits, inside_limits, standing_of, fresh, StepDone};
ghost use Rattle.request_reader.specs.Parts.{settled, resting_from, going_from, OutsideDone, InsideDone};

use carrier::Carrier;
use escape::Piece;
use marks::Class;
use refusal::Refusal;
use turns::Turn;

#[derive(Clone, Copy, PartialEq, Eq, Debug)]
pub enum Phase {
    Outside,
    Inside,
    Stopped,
}

// A reader. The body so far is the first `count` bytes of the lent body; outside a request style, code and count are 0. A record over its
// limits counts as stopped.
#[derive(Clone, Copy, PartialEq, Eq, Debug)]
pub struct Reader {
    pub carrier: Carrier,
    pub phase: Phase,
    pub escape: bool,
    pub style: u8,
    pub code: u8,
    pub count: u16,
}

// What a raw byte gives: more is needed; a character; a finished request, whose body is the first `length` bytes of the lent body; or
// a refusal.
#[derive(Clone, Copy, PartialEq, Eq, Debug)]
pub enum Answer {
    More,
    Character(u8),
    Request { style: u8, code: u8, length: u16 },
    Refused(Refusal),
}

#[derive(Clone, Copy, PartialEq, Eq, Debug)]
pub struct Stepped {
    pub answer: Answer,
    pub reader: Reader,
}

impl Reader {
    // How many bytes are lent for a body.
    pub const BODY: usize = 273;

    pub fn new(carrier: Carrier) -> Reader
        ensures { result ≡ fresh carrier }
    {
        Reader {
            carrier,
            phase: Phase::Outside,
            escape: false,
            style: 0,
            code: 0,
            count: 0,
        }
    }

    // A reset makes a reader fresh, also a stopped one.
    pub fn reset(self) -> Reader
        ensures { result ≡ fresh self.carrier }
    {
        Reader::new(self.carrier)
    }

    // One raw byte.
    pub fn step(self, raw: u8, body: &mut [u8; Reader::BODY]) -> Stepped
        ensures { StepDone self body.old raw result body.new }
    {
        match self.standing() {
            Phase::Outside => self.settled(self.outside_step(raw)),
            Phase::Inside => self.settled(self.inside_step(raw, body)),
            Phase::Stopped => Stepped {
                answer: Answer::Refused(Refusal::Stopped),
                reader: self,
            },
        }
    }

    // The phase that the record counts as.
    fn standing(self) -> Phase
        ensures { result ≡ standing_of self }
    {
        match self.phase {
            Phase::Outside if self.keeps_outside_limits() => Phase::Outside,
            Phase::Inside if self.keeps_inside_limits() => Phase::Inside,
            _ => Phase::Stopped,
        }
    }

    // Whether nothing of a request is held.
    fn keeps_outside_limits(self) -> bool
        ensures { result ≡ outside_limits self }
    {
        self.style == 0 && self.code == 0 && self.count == 0
    }

    // Whether the style is one of the carrier's, and the body has room for a byte.
    #[tactic(auto, unfolding(crate::specs::View::inside_limits))]
    fn keeps_inside_limits(self) -> bool
        ensures { result ≡ inside_limits self }
    {
        self.carrier.has_style(self.style)
            && (self.count as usize) < bodies::longest_body(self.code)
    }

    // What a step leaves: a refusal leaves the record given, stopped.
    fn settled(self, stepped: Result<Stepped, Refusal>) -> Stepped
        ensures { result ≡ settled self stepped }
    {
        match stepped {
            Ok(stepped) => stepped,
            Err(refusal) => Stepped {
                answer: Answer::Refused(refusal),
                reader: Reader {
                    phase: Phase::Stopped,
                    ..self
                },
            },
        }
    }

    // A raw byte outside a request.
    fn outside_step(self, raw: u8) -> Result<Stepped, Refusal>
        ensures { OutsideDone self (piece_outside (carrier_of self.carrier) self.escape raw) result }
    {
        match outside_piece(self.carrier, self.escape, raw) {
            Piece::Pending => Ok(self.resting(true, Answer::More)),
            Piece::Data(b) => Ok(self.resting(false, Answer::Character(b))),
            Piece::Mark(m) => self.mark_step(m),
        }
    }

    // A mark outside a request: its upper bits are the style, its lower five the code.
    fn mark_step(self, m: u8) -> Result<Stepped, Refusal>
        ensures { OutsideDone self (mark m) result }
    {
        if !starts_request(self.carrier, m) {
            return Err(Refusal::NotCarried);
        }
        let style = m / 32;
        let code = m % 32;
        if code == 0 {
            let request = Answer::Request {
                style,
                code,
                length: 0,
            };
            return Ok(self.resting(false, request));
        }
        Ok(self.going(false, style, code, 0))
    }

    // A raw byte inside a request.
    fn inside_step(self, raw: u8, body: &mut [u8; Reader::BODY]) -> Result<Stepped, Refusal>
        requires { inside_limits self ≡ true }
        ensures { InsideDone self body.old (piece_inside (carrier_of self.carrier) self.escape raw) result body.new }
    {
        match inside_piece(self.carrier, self.escape, raw) {
            Piece::Pending => Ok(self.going(true, self.style, self.code, self.count)),
            Piece::Mark(_) => Err(Refusal::Misplaced),
            Piece::Data(b) => self.data_step(b, body),
        }
    }

    // A data byte of the body.
    fn data_step(self, b: u8, body: &mut [u8; Reader::BODY]) -> Result<Stepped, Refusal>
        requires { inside_limits self ≡ true }
        ensures { InsideDone self body.old (data_byte b) result body.new }
    {
        let at = self.count as usize;
        let turn = bodies::body_turn(self.code, &body[..at], b)?;
        body[at] = b;
        let length = self.count + 1;
        match turn {
            Turn::More => Ok(self.going(false, self.style, self.code, length)),
            Turn::Done => {
                let request = Answer::Request {
                    style: self.style,
                    code: self.code,
                    length,
                };
                Ok(self.resting(false, request))
            }
        }
    }

    // An answer that leaves the reader outside a request.
    fn resting(self, escape: bool, answer: Answer) -> Stepped
        ensures { result ≡ resting_from self escape answer }
    {
        Stepped {
            answer,
            reader: Reader {
                escape,
                ..Reader::new(self.carrier)
            },
        }
    }

    // More is needed inside a request.
    fn going(self, escape: bool, style: u8, code: u8, count: u16) -> Stepped
        ensures { result ≡ going_from self escape style code count }
    {
        Stepped {
            answer: Answer::More,
            reader: Reader {
                phase: Phase::Inside,
                escape,
                style,
                code,
                count,
                ..self
            },
        }
    }
}

// A raw byte outside a request: on the parallel side a plain code.
fn outside_piece(carrier: Carrier, seen: bool, raw: u8) -> Piece
    ensures { piece_for result ≡ piece_outside (carrier_of carrier) seen raw }
{
    match carrier {
        Carrier::Serial => Piece::read(seen, raw),
        Carrier::Parallel => Piece::Mark(raw),
    }
}

// A raw byte inside a request: on the parallel side data.
fn inside_piece(carrier: Carrier, seen: bool, raw: u8) -> Piece
    ensures { piece_for result ≡ piece_inside (carrier_of carrier) seen raw }
{
    match carrier {
        Carrier::Serial => Piece::read(seen, raw),
        Carrier::Parallel => Piece::Data(raw),
    }
}

// Whether a mark, or on the parallel side a plain code, starts a request.
#[tactic(auto, unfolding(serial_rules::specs::Marks::outward_class))]
fn starts_request(carrier: Carrier, m: u8) -> bool
    ensures { result ≡ starts (carrier_of carrier) m }
{
    match carrier {
        Carrier::Serial => matches!(marks::outward_class(m), Class::Request),
        Carrier::Parallel => m % 2 == 0 && m <= 0x16,
    }
}
