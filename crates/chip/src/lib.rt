// The Tube chip as a record by value: eight channels and six flags.
#![tactic(auto)]

ghost use Rattle.std.specs.Prelude.{◌+◌, ◌≤◌, ◌<◌, ◌≡◌, true, false, cond, ◌&&◌, leb, ltb, eqb, MatchResult};
ghost use Rattle.chip_rules.specs.State.{held, fed, toward, chan, done, host, R1, R3};
ghost use Rattle.chip_rules.specs.Rules.{capacity, limit, room, n_flag, ready, status_of, bit, controlled, host_irq, parasite_irq, parasite_nmi, lines, take_oldest, append, on, step};
ghost use Rattle.chip_rules.specs.History.{line_value};
ghost use Rattle.flags.specs.Flags.{flags_of};
ghost use Rattle.chip.specs.Record.{places, state_of, valid_of, view, blank};
ghost use Rattle.chip.specs.Promise.{number, access_of, reply_of, AccessDone, ResetDone};
ghost use Rattle.chip.specs.Steps.{side_of, register_of, request_of, StepDone, Stored, MovedDown, Counted, PutDone, ControlDone};

// A record of words, so that an access changes registers and no array in memory. Channels are numbered register by register,
// host-to-parasite first. Byte c of `held` counts the bytes of channel c; byte c of `oldest` is its oldest and byte c of `next` the one
// behind; the third byte of parasite-to-host R1 and those behind it are in `later`. The flags P V M J I Q are bits 5 to 0 of `flags`; the
// bits above them stand for nothing. Every value of every word is a chip record.
#[repr(C)]
#[derive(Clone, Copy)]
pub struct Chip {
    pub oldest: u64,
    pub next: u64,
    pub later: u64,
    pub held: u64,
    pub flags: u64,
}

// Why an access is refused: a side or offset that does not exist, or a record that holds more than its capacities; a data write without
// room; a data read of an empty channel.
#[derive(Clone, Copy, PartialEq, Eq, Debug)]
pub enum Refusal {
    Missing = 1,
    NoRoom = 2,
    Empty = 3,
}

impl Refusal {
    // Document 01's number of it.
    pub fn number(self) -> u8
        ensures { result ≡ number self }
    {
        self as u8
    }
}

// What an access gives: the byte read, or 0 for a write, or why it is refused; and the chip that it leaves.
#[derive(Clone, Copy)]
pub struct Accessed {
    pub answer: Result<u8, Refusal>,
    pub chip: Chip,
}

impl Accessed {
    // Document 01's number of the answer: 0, or that of the refusal.
    pub fn number(self) -> u8
        ensures { result ≡ (reply_of self).answer }
    {
        match self.answer {
            Ok(_) => 0,
            Err(refusal) => refusal.number(),
        }
    }

    // The byte, 0 for a refusal.
    pub fn byte(self) -> u8
        ensures { result ≡ (reply_of self).byte }
    {
        self.answer.unwrap_or(0)
    }
}

// The two sides, by the rules' numbers.
#[derive(Clone, Copy, PartialEq, Eq)]
enum Side {
    Host = 0,
    Parasite = 1,
}

impl Side {
    fn number(self) -> u8
        ensures { result ≡ side_of self }
    {
        self as u8
    }
}

impl TryFrom<u8> for Side {
    type Error = Refusal;

    fn try_from(n: u8) -> Result<Self, Refusal>
        ensures { MatchResult result (λ side. side_of side ≡ n) (λ e. (number e ≡ 1) × (1 < n)) }
    {
        match n {
            0 => Ok(Side::Host),
            1 => Ok(Side::Parasite),
            _ => Err(Refusal::Missing),
        }
    }
}

// The four registers, by the rules' numbers.
#[derive(Clone, Copy, PartialEq, Eq)]
enum Register {
    R1 = 0,
    R2 = 1,
    R3 = 2,
    R4 = 3,
}

impl Register {
    fn number(self) -> u8
        ensures { result ≡ register_of self }
    {
        self as u8
    }
}

impl TryFrom<u8> for Register {
    type Error = Refusal;

    fn try_from(n: u8) -> Result<Self, Refusal>
        ensures { MatchResult result (λ register. register_of register ≡ n) (λ e. (number e ≡ 1) × (3 < n)) }
    {
        match n {
            0 => Ok(Register::R1),
            1 => Ok(Register::R2),
            2 => Ok(Register::R3),
            3 => Ok(Register::R4),
            _ => Err(Refusal::Missing),
        }
    }
}

// A register as a side sees it.
#[derive(Clone, Copy, PartialEq, Eq)]
struct Port {
    side: Side,
    register: Register,
}

const HOST_R1: Port = Port {
    side: Side::Host,
    register: Register::R1,
};

const HOST_R3: Port = Port {
    side: Side::Host,
    register: Register::R3,
};

const HOST_R4: Port = Port {
    side: Side::Host,
    register: Register::R4,
};

const PARASITE_R3: Port = Port {
    side: Side::Parasite,
    register: Register::R3,
};

const PARASITE_R4: Port = Port {
    side: Side::Parasite,
    register: Register::R4,
};

impl Port {
    // The channel that its side feeds.
    fn fed(self) -> Channel
        ensures { result.index ≡ fed (side_of self.side) (register_of self.register) }
    {
        let index = 2 * self.register.number() + self.side.number();
        Channel { index }
    }

    // The channel towards its side.
    fn toward(self) -> Channel
        ensures { result.index ≡ toward (side_of self.side) (register_of self.register) }
    {
        let index = 2 * self.register.number() + (1 - self.side.number());
        Channel { index }
    }
}

// One of the eight channels.
#[derive(Clone, Copy)]
struct Channel {
    index: u8,
    ghost within: { index < 8 },
}

// What each channel holds: byte c is the capacity of channel c. And below how many bytes held it takes one while V is clear: R3 when empty.
const CAPACITIES: u64 = Chip::LATCH_CAPACITY as u64 * 0x0101_0000_0101_0001
    + Chip::R3_CAPACITY as u64 * 0x0000_0101_0000_0000
    + Chip::R1_CAPACITY as u64 * 0x0000_0000_0000_0100;

const LIMITS_V_CLEAR: u64 = Chip::LATCH_CAPACITY as u64 * 0x0101_0101_0101_0001
    + Chip::R1_CAPACITY as u64 * 0x0000_0000_0000_0100;

impl Channel {
    // The number of held bytes below which a write to it is taken.
    fn limit(self, flags: u64) -> u8
        ensures { result ≡ limit (flags_of flags) self.index }
    {
        if flags::has_bit(flags, flags::V) {
            word::digit(CAPACITIES, self.index)
        } else {
            word::digit(LIMITS_V_CLEAR, self.index)
        }
    }
}

impl Chip {
    ghost use Rattle.chip.specs.Stepped.{Served};

    // What parasite-to-host R1, R3 either way, and every other channel hold.
    pub const R1_CAPACITY: u8 = 10;

    pub const R3_CAPACITY: u8 = 2;

    pub const LATCH_CAPACITY: u8 = 1;

    // A fresh chip.
    pub fn new() -> Self
        ensures { result ≡ blank }
    {
        Chip {
            oldest: 0,
            next: 0,
            later: 0,
            held: 0,
            flags: 0,
        }
    }

    // A reset leaves a fresh chip, also of a record that holds more than its capacities.
    pub fn reset(self) -> Self
        ensures { ResetDone self result }
    {
        Chip::new()
    }

    // One access. Side 0 is the host and 1 the parasite; a read ignores `byte`.
    pub fn access(self, side: u8, offset: u8, write: bool, byte: u8) -> Accessed
        ensures { AccessDone self (access_of side offset write byte) (reply_of result) result.chip }
    {
        match self.served(side, offset, write, byte) {
            Ok((byte, next)) => Accessed {
                answer: Ok(byte),
                chip: next.chip,
            },
            Err(refusal) => Accessed {
                answer: Err(refusal),
                chip: self,
            },
        }
    }

    // The line value; 0 for a record that holds more than its capacities.
    pub fn lines(self) -> u8
        ensures { result ≡ line_value (view self) }
    {
        if self.is_valid() { self.line_sum() } else { 0 }
    }

    // The byte and the chip that an access leaves.
    fn served(self, side: u8, offset: u8, write: bool, byte: u8) -> Result<(u8, Valid), Refusal>
        ensures { Served self (access_of side offset write byte) result }
    {
        let side = Side::try_from(side)?;
        let register = Register::try_from(offset / 2)?;
        let chip = self.valid()?;
        chip.step(Port { side, register }, offset % 2 == 1, write, byte)
    }

    // Whether no channel holds more than its capacity.
    fn is_valid(self) -> bool
        ensures { result ≡ valid_of self }
    {
        (0..8u8).all(|c| word::digit(self.held, c) <= word::digit(CAPACITIES, c))
    }

    fn valid(self) -> Result<Valid, Refusal>
        ensures { MatchResult result (λ v. v.chip ≡ self) (λ e. (number e ≡ 1) × (valid_of self ≡ false)) }
    {
        if self.is_valid() {
            Ok(Valid { chip: self })
        } else {
            Err(Refusal::Missing)
        }
    }

    // Byte `i` behind the oldest of a channel is `b`.
    fn stored(self, channel: Channel, i: u8, b: u8) -> Self
        requires { i < places channel.index }
        ensures { Stored self channel.index i b result }
    {
        let c = channel.index;
        match i {
            0 => Chip {
                oldest: word::replaced(self.oldest, c, b),
                ..self
            },
            1 => Chip {
                next: word::replaced(self.next, c, b),
                ..self
            },
            _ => Chip {
                later: word::replaced(self.later, i - 2, b),
                ..self
            },
        }
    }

    // Each of the `n` oldest bytes of a channel is the one behind it.
    fn moved_down(self, channel: Channel, n: u8) -> Self
        requires { n < places channel.index }
        ensures { MovedDown self channel.index n result }
    {
        if n == 0 {
            return self;
        }
        let c = channel.index;
        let oldest = word::replaced(self.oldest, c, word::digit(self.next, c));
        if n == 1 {
            return Chip { oldest, ..self };
        }
        let next = word::replaced(self.next, c, word::digit(self.later, 0));
        let later = word::slid(self.later, n - 2);
        Chip {
            oldest,
            next,
            later,
            ..self
        }
    }

    // A channel counted as holding `n` bytes.
    fn counted(self, channel: Channel, n: u8) -> Self
        ensures { Counted self channel.index n result }
    {
        let held = word::replaced(self.held, channel.index, n);
        Chip { held, ..self }
    }

    // How many bytes a channel holds.
    fn count(self, channel: Channel) -> u8
        ensures { result ≡ held (chan (state_of self) channel.index) }
    {
        word::digit(self.held, channel.index)
    }

    // Whether a data write to a channel would now be taken.
    fn has_room(self, channel: Channel) -> bool
        ensures { result ≡ room (flags_of self.flags) channel.index (held (chan (state_of self) channel.index)) }
    {
        self.count(channel) < channel.limit(self.flags)
    }

    // Whether a channel holds a byte.
    fn holds_byte(self, channel: Channel) -> bool
        ensures { result ≡ ltb 0 (held (chan (state_of self) channel.index)) }
    {
        0 < self.count(channel)
    }

    // N, by the flags and the bytes held in host-to-parasite R3.
    fn n_flag(self) -> bool
        ensures { result ≡ n_flag (flags_of self.flags) (held (chan (state_of self) (fed host R3))) }
    {
        let channel = HOST_R3.fed();
        if flags::has_bit(self.flags, flags::V) {
            self.count(channel) == 2
        } else {
            self.holds_byte(channel)
        }
    }

    // Bit 7 of a status.
    fn is_ready(self, port: Port) -> bool
        ensures { result ≡ ready (flags_of self.flags) (side_of port.side) (register_of port.register) (held (chan (state_of self) (toward (side_of port.side) (register_of port.register)))) }
    {
        if port == PARASITE_R3 {
            self.n_flag()
        } else {
            self.holds_byte(port.toward())
        }
    }

    // The status of a register, as a side reads it.
    fn status(self, port: Port) -> u8
        ensures { result ≡ status_of (state_of self) (side_of port.side) (register_of port.register) }
    {
        flags::weight(self.is_ready(port), 128)
            + flags::weight(self.has_room(port.fed()), 64)
            + flags::low_bits(self.flags, port.register.number())
    }

    // The sum of the asserted lines.
    fn line_sum(self) -> u8
        ensures { result ≡ lines (state_of self) }
    {
        flags::weight(self.host_irq(), 1)
            + flags::weight(self.parasite_irq(), 2)
            + flags::weight(self.parasite_nmi(), 4)
            + flags::weight(flags::has_bit(self.flags, flags::P), 8)
    }

    // Whether the flag of weight `w` is set and a channel holds a byte.
    fn interrupts(self, w: u8, channel: Channel) -> bool
        ensures { result ≡ (bit self.flags w && ltb 0 (held (chan (state_of self) channel.index))) }
    {
        flags::has_bit(self.flags, w) && self.holds_byte(channel)
    }

    fn host_irq(self) -> bool
        ensures { result ≡ host_irq (state_of self) }
    {
        self.interrupts(flags::Q, PARASITE_R4.fed())
    }

    fn parasite_irq(self) -> bool
        ensures { result ≡ parasite_irq (state_of self) }
    {
        self.interrupts(flags::I, HOST_R1.fed()) || self.interrupts(flags::J, HOST_R4.fed())
    }

    fn parasite_nmi(self) -> bool
        ensures { result ≡ parasite_nmi (state_of self) }
    {
        flags::has_bit(self.flags, flags::M) && self.n_flag()
    }
}

// A record of which no channel holds more than its capacity.
#[derive(Clone, Copy)]
struct Valid {
    chip: Chip,
    ghost valid: { valid_of chip ≡ true },
}

impl Valid {
    ghost use Rattle.chip.specs.Stepped.{Stepped};

    // An access: the byte and the chip that it leaves.
    fn step(self, port: Port, is_data: bool, write: bool, byte: u8) -> Result<(u8, Self), Refusal>
        ensures { Stepped self.chip (step (state_of self.chip) (side_of port.side) (request_of port is_data write byte)) result }
    {
        match (is_data, write) {
            (true, true) => self.write_data(port.fed(), byte),
            (true, false) => self.read_data(port.toward()),
            (false, true) => Ok((0, self.write_status(port, byte))),
            (false, false) => Ok((self.chip.status(port), self)),
        }
    }

    // A data write of `b` to a channel.
    fn write_data(self, channel: Channel, b: u8) -> Result<(u8, Self), Refusal>
        ensures { Stepped self.chip (on (state_of self.chip) channel.index (append (room (flags_of self.chip.flags) channel.index) b)) result }
    {
        if self.chip.has_room(channel) {
            Ok((0, self.put(channel, b)))
        } else {
            Err(Refusal::NoRoom)
        }
    }

    // A data read of a channel: its oldest byte, and the chip without it.
    fn read_data(self, channel: Channel) -> Result<(u8, Self), Refusal>
        ensures { Stepped self.chip (on (state_of self.chip) channel.index take_oldest) result }
    {
        let Some(fewer) = self.chip.count(channel).checked_sub(1) else {
            return Err(Refusal::Empty);
        };
        let byte = word::digit(self.chip.oldest, channel.index);
        let chip = self.chip.moved_down(channel, fewer).counted(channel, fewer);
        Ok((byte, Valid { chip }))
    }

    // A status write: control at the host's R1, and nothing elsewhere.
    fn write_status(self, port: Port, byte: u8) -> Self
        ensures { StepDone self.chip (done 0 (cond (eqb (side_of port.side) host && eqb (register_of port.register) R1) (controlled byte (state_of self.chip)) (state_of self.chip))) 0 result.chip }
    {
        if port == HOST_R1 {
            self.control(byte)
        } else {
            self
        }
    }

    // The chip after the control byte `x`. The clear leaves the bytes as they are.
    fn control(self, x: u8) -> Self
        ensures { ControlDone self.chip x result.chip }
    {
        let chip = self.chip;
        let flags = flags::flags_after(x, chip.flags);
        let held = if flags::is_clear(x) { 0 } else { chip.held };
        Valid {
            chip: Chip {
                held,
                flags,
                ..chip
            },
        }
    }

    // A channel that has a place left with one byte more.
    fn put(self, channel: Channel, b: u8) -> Self
        requires { held (chan (state_of self.chip) channel.index) < capacity channel.index }
        ensures { PutDone self.chip channel.index b result.chip }
    {
        let n = self.chip.count(channel);
        let chip = self.chip.stored(channel, n, b).counted(channel, n + 1);
        Valid { chip }
    }
}
