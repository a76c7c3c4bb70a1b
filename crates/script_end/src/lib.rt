// Where the player of a script stops, and what it answers there.
#![tactic(auto)]

ghost use Rattle.std.specs.Prelude.{◌+◌, ◌*◌, ◌≤◌, ◌<◌, ◌≡◌};
ghost use Rattle.script_end.specs.Ending.{playable, ending, number};

// The smaller of the limit and the whole records in so many bytes.
pub fn record_count(bytes: usize, limit: usize) -> usize
    ensures { (result ≡ playable bytes limit) × (result ≤ limit) × (3 * result ≤ bytes) × (result < limit → bytes < 3 * result + 3) }
{
    limit.min(bytes / 3)
}

// How a script ends: played to its end; with results that do not fit, and nothing played; at the limit; inside a record.
#[derive(Clone, Copy, PartialEq, Eq, Debug)]
pub enum Ending {
    Done = 0,
    NoRoom = 8,
    Limit = 10,
    Cut = 11,
}

impl Ending {
    // Of a script that is played, by the bytes that are left of it and the records that are left of the limit.
    pub fn of_rest(bytes: usize, records: usize) -> Self
        ensures { result ≡ ending bytes records }
    {
        match (bytes, records) {
            (0, _) => Ending::Done,
            (_, 0) => Ending::Limit,
            _ => Ending::Cut,
        }
    }

    // Document 01's number of it, the final answer.
    pub fn number(self) -> u8
        ensures { result ≡ number self }
    {
        self as u8
    }
}
