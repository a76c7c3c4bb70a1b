// An action of a recording, the raw bytes that came behind one call: its mark and the bytes of its own.
#![tactic(auto)]

ghost use Rattle.std.specs.Prelude.{◌≤◌, ◌<◌, min, ◌≡◌, length};
ghost use Rattle.serial_rules.specs.Link.{own_most, starts, meaning_of};
ghost use Rattle.actions.specs.Actions.{action_for};
ghost use Rattle.action_bytes.specs.Parts.{finish_of, is_fifth, depth_for, OwnDone, BeganDone};

use actions::{Action, Meaning, Target};
use answers::Answer;
use escape::Unit;
use link::Link;
use refusal::Refusal;
use turns::Turn;

// Where the reading ended: its answer, and the place behind the last raw byte that was read.
#[derive(Clone, Copy, PartialEq, Eq, Debug)]
pub struct Halt {
    pub answer: Answer,
    pub at: usize,
}

// An action's own bytes: how many there are before the last one, and the place behind it.
#[derive(Clone, Copy)]
struct Owned {
    held: u16,
    at: usize,
}

// An action but for the body of a transfer, with the place behind it: an answer that is passed over, or that of a load or save.
#[derive(Clone, Copy, PartialEq, Eq, Debug)]
pub enum Began {
    Told(Answer, usize),
    Opens(bool, Answer, usize),
}

// An action but for the body of the transfer that it opens, from the place behind its mark, where so many transfers are open; or where it ended the
// reading. A place behind the end of the recording counts as its end, and the end of a transfer is read as outside every transfer.
pub fn begin_action(
    raw: &[u8],
    at: usize,
    mark: u8,
    depth: usize,
    own: &mut [u8; Link::OWN],
) -> Result<Began, Halt>
    ensures { BeganDone raw.now (depth_for (meaning_of mark) depth) (min at (length raw.now)) (meaning_of mark) own.new result }
{
    let at = at.min(raw.len());
    match Meaning::of(mark) {
        Meaning::Unknown => Err(Halt {
            answer: Answer::Refused(Refusal::NotCarried.number()),
            at,
        }),
        Meaning::State(on) => Ok(Began::Told(Answer::EscapeState(on), at)),
        Meaning::End => Err(Halt {
            answer: Answer::Refused(Refusal::Misplaced.number()),
            at,
        }),
        Meaning::Starts(action) => start(raw, at, action, depth, own),
    }
}

// An action starts, unless it would open a fifth transfer; then its own bytes.
fn start(
    raw: &[u8],
    at: usize,
    action: Action,
    depth: usize,
    own: &mut [u8; Link::OWN],
) -> Result<Began, Halt>
    requires { (at ≤ length raw.now) × (0 < own_most (action_for action)) }
    ensures { BeganDone raw.now depth at (starts (action_for action)) own.new result }
{
    if is_fifth(action, depth) {
        return Err(Halt {
            answer: Answer::Refused(Refusal::TooDeep.number()),
            at,
        });
    }
    let owned = own_bytes(raw, at, action, own)?;
    finish(action, answers::told_by(action, owned.held, own), owned.at)
}

// Whether an action would open a fifth transfer.
fn is_fifth(action: Action, depth: usize) -> bool
    ensures { result ≡ is_fifth action depth }
{
    action.opens_transfer() && 4 <= depth
}

// What an action with all its bytes does.
fn finish(action: Action, answer: Answer, at: usize) -> Result<Began, Halt>
    ensures { result ≡ finish_of action answer at }
{
    match action {
        Action::Error => Err(Halt { answer, at }),
        Action::Address(Target::Load) => Ok(Began::Opens(false, answer, at)),
        Action::Address(Target::Save) => Ok(Began::Opens(true, answer, at)),
        Action::Event | Action::Address(_) | Action::Block(_) => Ok(Began::Told(answer, at)),
    }
}

// The bytes of an action's own, from a place on.
fn own_bytes(
    raw: &[u8],
    from: usize,
    action: Action,
    own: &mut [u8; Link::OWN],
) -> Result<Owned, Halt>
    requires { (from ≤ length raw.now) × (0 < own_most (action_for action)) }
    ensures { OwnDone raw.now action from own.new result }
{
    let mut i = from;
    let mut held: u16 = 0;
    loop {
        let unit = escape::unit_at(raw, i);
        match unit {
            Unit::Gone => {
                return Err(Halt {
                    answer: Answer::More,
                    at: raw.len(),
                });
            }
            Unit::Mark(_, at) => {
                return Err(Halt {
                    answer: Answer::Refused(Refusal::Misplaced.number()),
                    at,
                });
            }
            Unit::Data(b, next) => {
                let turn = match action.shape().turn(held as usize, b) {
                    Ok(turn) => turn,
                    Err(refusal) => {
                        return Err(Halt {
                            answer: Answer::Refused(refusal.number()),
                            at: next,
                        });
                    }
                };
                own[held as usize] = b;
                match turn {
                    Turn::Done => {
                        return Ok(Owned { held, at: next });
                    }
                    Turn::More => {
                        held += 1;
                        i = next;
                    }
                }
            }
        }
    }
}
