// Notes of what a reader of many bytes passed over, and the load data and control blocks among it, written into lent bytes: as far as these have
// room, and counted where they have none, so that the same reader measures what it needs.
#![tactic(auto)]

ghost use Rattle.std.specs.Prelude.{◌+◌, ◌*◌, ◌-◌, ◌≤◌, ◌<◌, ◌≡◌, true, [], ◌∷◌, length, take};
ghost use Rattle.actions.specs.Actions.{target_for};
ghost use Rattle.escape.specs.Put.{Put};
ghost use Rattle.notes.specs.Notes.{longest_run, address_kind};
ghost use Rattle.notes.specs.Logs.{fresh, data_in, countable, run_goes_on, joinable, most_count, Wrote, noted_in, grown_by, Added, AddDone, BlockDone, LoadedDone, JoinedDone, AddRunDone};

use actions::Target;
use answers::Answer;

// How many notes were made, how many bytes of data there were, and how many load bytes the last note counts, 0 where it is of something else.
#[derive(Clone, Copy, PartialEq, Eq, Debug)]
pub struct Log {
    pub noted: usize,
    pub stored: usize,
    pub run: usize,
}

impl Log {
    // The bytes of a note.
    pub const NOTE: usize = 5;

    // The most load bytes of a note.
    pub const RUN: usize = 255;

    // Nothing noted so far.
    pub fn new() -> Log
        ensures { result ≡ fresh }
    {
        Log {
            noted: 0,
            stored: 0,
            run: 0,
        }
    }

    // One answer more that is passed over, where `own` has the bytes of a control block. Nothing is done where a count has no room for it.
    pub fn add(self, answer: Answer, own: &[u8], notes: &mut [u8], content: &mut [u8]) -> Log
        ensures { AddDone self answer own.now notes.old content.old result notes.new content.new }
    {
        if self.counts(answer, own.len()) {
            return self.added(answer, own, notes, content);
        }
        self
    }

    // Load bytes that join the last note, which is of load data: those at the start of `raw` before the first escape, as far as the note counts.
    // Nothing is done where the last note is of something else, or a count has no room for them.
    pub fn add_run(self, raw: &[u8], notes: &mut [u8], content: &mut [u8]) -> Log
        ensures { AddRunDone self raw.now notes.old content.old result notes.new content.new }
    {
        if self.joins(raw.len()) {
            return self.joined(raw, notes, content);
        }
        self
    }

    // Whether the counts have room for an answer, whose data are among so many own bytes.
    #[tactic(auto, unfolding(crate::specs::Logs::countable))]
    fn counts(self, answer: Answer, own: usize) -> bool
        ensures { result ≡ countable self answer own }
    {
        let n = data_in(answer);
        self.noted < usize::MAX && n <= own && n < 256 && self.stored <= usize::MAX - n
    }

    // Whether load bytes can join the last note, and the counts have room for so many.
    #[tactic(auto, unfolding(crate::specs::Logs::joinable))]
    fn joins(self, n: usize) -> bool
        ensures { result ≡ joinable self n }
    {
        self.goes_on() && self.stored <= usize::MAX - n
    }

    fn added(self, answer: Answer, own: &[u8], notes: &mut [u8], content: &mut [u8]) -> Log
        requires { countable self answer (length own.now) ≡ true }
        ensures { Added self answer own.now notes.old content.old result notes.new content.new }
    {
        match answer {
            Answer::Character(b) => self.note([1, b, 0, 0, 0], notes),
            Answer::EscapeState(on) => self.note([2, u8::from(on), 0, 0, 0], notes),
            Answer::Event { y, x, a } => self.note([3, y, x, a, 0], notes),
            Answer::Address {
                target,
                b3,
                b2,
                b1,
                b0,
            } => self.note([address_kind(target), b3, b2, b1, b0], notes),
            Answer::Block(n) => self.block(n, own, notes, content),
            Answer::Loaded(b) => self.loaded(b, notes, content),
            Answer::Ended { save } => self.note([14, u8::from(save), 0, 0, 0], notes),
            Answer::More
            | Answer::Reply(_)
            | Answer::Error { .. }
            | Answer::Restart
            | Answer::Refused(_) => self,
        }
    }

    // One note more.
    fn note(self, note: [u8; Log::NOTE], notes: &mut [u8]) -> Log
        requires { self.noted < most_count }
        ensures { (result ≡ noted_in self) × Wrote (5 * self.noted) note notes.old notes.new }
    {
        put_note(self.noted, note, notes);
        Log {
            noted: self.noted + 1,
            run: 0,
            ..self
        }
    }

    // A control block, the first n of an action's own bytes: one note more, and its bytes.
    fn block(self, n: usize, own: &[u8], notes: &mut [u8], content: &mut [u8]) -> Log
        requires { (self.noted < most_count) × (n ≤ length own.now) × (n < 256) × (self.stored + n ≤ most_count) }
        ensures { BlockDone self (take n own.now) notes.old content.old result notes.new content.new }
    {
        put_note(self.noted, [9, n as u8, 0, 0, 0], notes);
        put_data(self.stored, &own[..n], content);
        Log {
            noted: self.noted + 1,
            stored: self.stored + n,
            run: 0,
        }
    }

    // A byte of load data: it joins the last note, or has one of its own.
    fn loaded(self, b: u8, notes: &mut [u8], content: &mut [u8]) -> Log
        requires { (self.noted < most_count) × (self.stored < most_count) }
        ensures { LoadedDone self b notes.old content.old result notes.new content.new }
    {
        put_byte(self.stored, b, content);
        if self.goes_on() {
            return self.grown(1, notes);
        }
        put_note(self.noted, [13, 1, 0, 0, 0], notes);
        Log {
            noted: self.noted + 1,
            stored: self.stored + 1,
            run: 1,
        }
    }

    // Whether the last note is of load data and counts one byte more.
    #[tactic(auto, unfolding(crate::specs::Logs::run_goes_on))]
    fn goes_on(self) -> bool
        ensures { result ≡ run_goes_on self }
    {
        self.run != 0 && self.noted != 0 && self.run < Log::RUN
    }

    // The load bytes at the start of `raw`, as far as the last note counts.
    fn joined(self, raw: &[u8], notes: &mut [u8], content: &mut [u8]) -> Log
        requires { joinable self (length raw.now) ≡ true }
        ensures { JoinedDone self raw.now notes.old content.old result notes.new content.new }
    {
        let left = Log::RUN - self.run;
        let n = turns::data_ahead(raw, left);
        put_data(self.stored, &raw[..n], content);
        self.grown(n, notes)
    }

    // The last note counts n load bytes more.
    fn grown(self, n: usize, notes: &mut [u8]) -> Log
        requires { (0 < self.noted) × (self.run + n ≤ longest_run) × (self.stored + n ≤ most_count) }
        ensures { (result ≡ grown_by self n) × Wrote (5 * (self.noted - 1)) (13 ∷ (self.run + n) ∷ 0 ∷ 0 ∷ 0 ∷ []) notes.old notes.new }
    {
        let run = self.run + n;
        put_note(self.noted - 1, [13, run as u8, 0, 0, 0], notes);
        Log {
            stored: self.stored + n,
            run,
            ..self
        }
    }
}

// The bytes of data that an answer brings.
fn data_in(answer: Answer) -> usize
    ensures { result ≡ data_in answer }
{
    match answer {
        Answer::Block(n) => n,
        Answer::Loaded(_) => 1,
        _ => 0,
    }
}

// The kind of the note of four address bytes, by what they are for.
pub fn address_kind(target: Target) -> u8
    ensures { result ≡ address_kind (target_for target) }
{
    match target {
        Target::Set => 4,
        Target::Execute => 10,
        Target::Load => 11,
        Target::Save => 12,
    }
}

// Writes the note behind so many, where there is room.
fn put_note(index: usize, note: [u8; Log::NOTE], notes: &mut [u8])
    ensures { Wrote (5 * index) note notes.old notes.new }
{
    if index < notes.len() / Log::NOTE {
        put(&note, &mut notes[Log::NOTE * index..]);
    }
}

// Writes one byte at a place, where there is room.
fn put_byte(at: usize, b: u8, content: &mut [u8])
    ensures { Wrote at (b ∷ []) content.old content.new }
{
    if at < content.len() {
        content[at] = b;
    }
}

// Writes bytes from a place on, where there is room for all of them.
fn put_data(at: usize, bytes: &[u8], content: &mut [u8])
    ensures { Wrote at bytes.now content.old content.new }
{
    if at <= content.len() && bytes.len() <= content.len() - at {
        put(bytes, &mut content[at..]);
    }
}

// Writes bytes at the start, for which there is room.
fn put(bytes: &[u8], out: &mut [u8])
    requires { length bytes.now ≤ length out.old }
    ensures { Put bytes.now out.old out.new (length bytes.now) }
{
    for i in 0..bytes.len() {
        out[i] = bytes[i];
    }
}
