// The actions and block transfers of a recording, the raw bytes that came behind one call. The body of a transfer calls the action reader, and the
// action reader calls the body of the transfer that an action opens: what remains of the recording falls at each call.
#![tactic(auto)]

ghost use Rattle.std.specs.Prelude.{◌≤◌, min, ◌≡◌, length};
ghost use Rattle.serial_rules.specs.Link.{end, meaning_of};
ghost use Rattle.transfers.specs.Parts.{halted_at, going_at, is_end, BodyDone, ActDone, LoadDone};

use action_bytes::Began;
use actions::Meaning;
use answers::Answer;
use escape::Unit;
use link::Link;
use notes::Log;
use refusal::Refusal;

// Where a part of the recording led, and the answer that ended the reading there, if one did.
#[derive(Clone, Copy, PartialEq, Eq, Debug)]
pub struct Walked {
    pub end: Option<Answer>,
    pub at: usize,
    pub log: Log,
}

#[derive(Clone, Copy)]
struct Loads {
    at: usize,
    log: Log,
}

// An action outside every transfer, from the place behind its mark. A place behind the end of the recording counts as its end.
pub fn read_action(
    raw: &[u8],
    at: usize,
    mark: u8,
    log: Log,
    own: &mut [u8; Link::OWN],
    notes: &mut [u8],
    content: &mut [u8],
) -> Walked
    ensures { ActDone raw.now 0 (min at (length raw.now)) (meaning_of mark) log notes.old content.old result own.new notes.new content.new }
{
    act(raw, at, mark, 0, log, own, notes, content)
}

// The body of an open transfer, from a place to behind its end, where so many are open with it.
#[cycle(act_body)]
fn body(
    raw: &[u8],
    from: usize,
    save: bool,
    depth: usize,
    given: Log,
    own: &mut [u8; Link::OWN],
    notes: &mut [u8],
    content: &mut [u8],
) -> Walked
    requires { (from ≤ length raw.now) × (depth ≤ 4) }
    ensures { BodyDone raw.now save depth from given notes.old content.old result own.new notes.new content.new }
{
    let mut log = given;
    let mut i = from;
    loop {
        let unit = escape::unit_at(raw, i);
        match unit {
            Unit::Gone => {
                return halted(Answer::More, raw.len(), log);
            }
            Unit::Data(b, next) => {
                if save {
                    return halted(Answer::Refused(Refusal::BadField.number()), next, log);
                }
                let l = load(b, raw, next, log, own, notes, content);
                i = l.at;
                log = l.log;
            }
            Unit::Mark(m, next) => {
                if is_end(Meaning::of(m)) {
                    let last = log.add(Answer::Ended { save }, own, notes, content);
                    return going(next, last);
                }
                let w = act(raw, next, m, depth, log, own, notes, content);
                match w.end {
                    Some(_) => {
                        return w;
                    }
                    None => {
                        i = w.at;
                        log = w.log;
                    }
                }
            }
        }
    }
}

// An action, from the place behind its mark, where so many transfers are open. It meets no end of one of them.
#[cycle(act_body)]
fn act(
    raw: &[u8],
    at: usize,
    mark: u8,
    depth: usize,
    log: Log,
    own: &mut [u8; Link::OWN],
    notes: &mut [u8],
    content: &mut [u8],
) -> Walked
    requires { (depth ≤ 4) × (meaning_of mark ≡ end → depth ≡ 0) }
    ensures { ActDone raw.now depth (min at (length raw.now)) (meaning_of mark) log notes.old content.old result own.new notes.new content.new }
{
    let began = match action_bytes::begin_action(raw, at, mark, depth, own) {
        Ok(began) => began,
        Err(halt) => {
            return halted(halt.answer, halt.at, log);
        }
    };
    match began {
        Began::Told(answer, next) => going(next, log.add(answer, own, notes, content)),
        Began::Opens(save, answer, next) => {
            let opened = log.add(answer, own, notes, content);
            body(raw, next, save, depth + 1, opened, own, notes, content)
        }
    }
}

fn halted(answer: Answer, at: usize, log: Log) -> Walked
    ensures { result ≡ halted_at answer at log }
{
    Walked {
        end: Some(answer),
        at,
        log,
    }
}

fn going(at: usize, log: Log) -> Walked
    ensures { result ≡ going_at at log }
{
    Walked { end: None, at, log }
}

// A byte of load data, and those behind it that join its note.
fn load(
    b: u8,
    raw: &[u8],
    next: usize,
    log: Log,
    own: &[u8],
    notes: &mut [u8],
    content: &mut [u8],
) -> Loads
    requires { (next ≤ length raw.now) × (1 ≤ length own.now) }
    ensures { LoadDone raw.now b next log notes.old content.old result notes.new content.new }
{
    let one = log.add(Answer::Loaded(b), own, notes, content);
    let all = one.add_run(&raw[next..], notes, content);
    let more = all.run - one.run;
    Loads {
        at: next + more,
        log: all,
    }
}

// Whether a mark is the end of a transfer.
fn is_end(meaning: Meaning) -> bool
    ensures { result ≡ is_end meaning }
{
    matches!(meaning, Meaning::End)
}
