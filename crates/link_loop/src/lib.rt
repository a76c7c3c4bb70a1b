// The loop over raw bytes: it passes over what is not a reply, and loses nothing that was reported.
#![tactic(auto)]

ghost use Rattle.std.specs.Prelude.{◌<◌, ◌≡◌, true, false};
ghost use Rattle.link.specs.View.{usable_of};
ghost use Rattle.link_loop.specs.Run.{lacks_room, RunDone};
ghost use Rattle.link_loop.specs.Parts.{ended_from, taken_as, got_from, in_reply, mid_reply, TakeDone, in_load, LoadPassDone};

use answers::Answer;
use escape::Unit;
use kind::CallKind;
use link::{Link, Wait};
use notes::Log;
use refusal::Refusal;
use turns::Turn;

// Where the loop ended: a finished reply, an error or restart, a refusal, or need-more at the end of its raw bytes; how many of them it used;
// how many notes and how many bytes of data it wrote; the link.
#[derive(Clone, Copy, PartialEq, Eq, Debug)]
pub struct Ran {
    pub answer: Answer,
    pub used: usize,
    pub noted: usize,
    pub stored: usize,
    pub link: Link,
}

// Bytes of a reply that were taken at once: how many raw bytes they are, how many bytes of the reply came so far, and whether it is whole.
#[derive(Clone, Copy)]
struct Taken {
    used: usize,
    got: usize,
    whole: bool,
}

// Raw bytes, until a reply is finished, an error or restart comes, a byte is refused, or they end. What it passes over leaves notes in the lent room,
// and load data and control blocks go into the lent content: see `notes::Log`. Without room for a note and a byte of data for each raw byte, and for the
// open action's bytes before them, nothing is done.
pub fn run(
    link: Link,
    raw: &[u8],
    reply: &mut [u8; CallKind::REPLY],
    own: &mut [u8; Link::OWN],
    room: &mut [u8],
    content: &mut [u8],
) -> Ran
    ensures { RunDone link reply.old own.old raw.now room.old content.old result reply.new own.new room.new content.new }
{
    if lacks_room(link.held, raw.len(), room.len(), content.len()) {
        return ended(
            link,
            Answer::Refused(Refusal::NoRoom.number()),
            0,
            Log::new(),
        );
    }
    let mut at = link;
    let mut i: usize = 0;
    let mut log = Log::new();
    loop {
        let taken = take_reply(at, &raw[i..], reply);
        i += taken.used;
        if taken.whole {
            return ended(Link::new(), Answer::Reply(taken.got), i, log);
        }
        let next = with_got(at, taken.got);
        if raw.len() <= i {
            return ended(next, Answer::More, i, log);
        }
        let s = link_step::step(next, raw[i], reply, own);
        let answer = s.answer;
        at = s.link;
        i += 1;
        // A finished reply first: most often the loop ends with one.
        let Answer::Reply(length) = answer else {
            if answer.ends() {
                return ended(at, answer, i, log);
            }
            let noted = log.add(answer, own, room, content);
            log = pass_load(at, noted, &raw[i..], room, content);
            i += log.run - noted.run;
            continue;
        };
        return ended(at, Answer::Reply(length), i, log);
    }
}

// Whether so much room and content are too little for so many raw bytes, where an action has bytes of its own already.
#[tactic(auto, using(crate::proofs::Notes::lacks_tests))]
pub fn lacks_room(held: u16, bytes: usize, room: usize, content: usize) -> bool
    ensures { result ≡ lacks_room held bytes room content }
{
    let before = held as usize;
    room / Log::NOTE < bytes || content < before || content - before < bytes
}

// The bytes of the reply that waits, where no escape was seen and nothing is open, up to a mark, a refused byte or the end of the raw bytes: most
// replies end here, without a look at the link for each byte.
fn take_reply(link: Link, raw: &[u8], reply: &mut [u8; CallKind::REPLY]) -> Taken
    ensures { TakeDone link reply.old raw.now result reply.new }
{
    match link.wait {
        Wait::Waiting(kind) if in_reply(link) => take_bytes(kind, link.got, raw, reply),
        _ => part_taken(0, link.got as usize),
    }
}

// Whether the next raw byte, if it is not an escape, is of the reply that waits, where one does.
fn in_reply(link: Link) -> bool
    ensures { result ≡ in_reply link }
{
    !link.stopped && !link.escape && link.nested == 0 && link.held == 0 && link.doing.is_none()
}

// The bytes of a reply behind the first ones: runs of plain ones are stored at once.
fn take_bytes(kind: CallKind, from: u16, raw: &[u8], reply: &mut [u8; CallKind::REPLY]) -> Taken
    ensures { TakeDone (mid_reply kind «from») reply.old raw.now result reply.new }
{
    let shape = kind.shape();
    let longest = shape.longest();
    let mut i: usize = 0;
    let mut got = from as usize;
    while got < longest {
        let end = got + shape.ahead(got);
        let n = turns::copy_plain(&raw[i..], &mut reply[got..end]);
        i += n;
        got += n;
        let unit = escape::unit_at(raw, i);
        let Unit::Data(b, next) = unit else {
            return part_taken(i, got);
        };
        let Ok(turn) = shape.turn(got, b) else {
            return part_taken(i, got);
        };
        reply[got] = b;
        match turn {
            Turn::Done => {
                return Taken {
                    used: next,
                    got: got + 1,
                    whole: true,
                };
            }
            Turn::More => {
                got += 1;
                i = next;
            }
        }
    }
    part_taken(i, got)
}

// A reply that is not whole.
fn part_taken(used: usize, got: usize) -> Taken
    ensures { result ≡ taken_as used got false }
{
    Taken {
        used,
        got,
        whole: false,
    }
}

// The link with so many bytes of the reply.
fn with_got(link: Link, got: usize) -> Link
    requires { got < 65536 }
    ensures { result ≡ got_from link got }
{
    Link {
        got: got as u16,
        ..link
    }
}

// Raw bytes of the load that is innermost, behind one that was noted: those that join its note are stored at once.
fn pass_load(link: Link, log: Log, raw: &[u8], room: &mut [u8], content: &mut [u8]) -> Log
    requires { usable_of link ≡ true }
    ensures { LoadPassDone link log raw.now room.old content.old result room.new content.new }
{
    if in_load(link) {
        return log.add_run(raw, room, content);
    }
    log
}

// Whether the next raw byte, if it is not an escape, is load data.
fn in_load(link: Link) -> bool
    ensures { result ≡ in_load link }
{
    link.nested % 2 != 0 && !link.escape && link.doing.is_none()
}

// The loop ended with this answer.
fn ended(link: Link, answer: Answer, used: usize, log: Log) -> Ran
    ensures { result ≡ ended_from link answer used log }
{
    Ran {
        answer,
        used,
        noted: log.noted,
        stored: log.stored,
        link,
    }
}
