// One raw byte read by a link: what the escape layer and the actions make of it, and what that does to the reply that waits.
#![tactic(auto)]

ghost use Rattle.std.specs.Prelude.{◌<◌, ◌≤◌, ◌≡◌, true, Some, Ok};
ghost use Rattle.actions.specs.declared.Action.TheVariants.{Error, Address};
ghost use Rattle.kind.specs.Kinds.{reply_lent};
ghost use Rattle.link.specs.declared.Wait.TheVariants.{Waiting};
ghost use Rattle.link.specs.View.{own_room, nest_room, usable_of, own_lent, StepDone};
ghost use Rattle.link_step.specs.Parts.{stepped_from, placed_from, ReadDone, MarkDone, OpeningDone, StartDone, ClosingDone, DataDone, ReplyByteDone, OwnDone, FinishedDone};

use actions::{Action, Meaning, Target};
use answers::Answer;
use escape::Piece;
use kind::CallKind;
use link::{Link, Stepped, Wait};
use refusal::Refusal;
use turns::Turn;

// One raw byte.
pub fn step(
    link: Link,
    raw: u8,
    reply: &mut [u8; CallKind::REPLY],
    own: &mut [u8; Link::OWN],
) -> Stepped
    ensures { StepDone link reply.old own.old raw result reply.new own.new }
{
    if !link.usable() {
        return Stepped {
            answer: Answer::Refused(Refusal::Stopped.number()),
            link,
        };
    }
    let usable = Usable { link };
    match usable.read(raw, reply, own) {
        Ok(stepped) => stepped,
        Err(refusal) => link.refused(refusal.number()),
    }
}

// A link that is not stopped and within its limits, so that its counts are within the lent bytes.
#[derive(Clone, Copy)]
struct Usable {
    link: Link,
    ghost usable: { usable_of link ≡ true },
    ghost got: { link.got < reply_lent },
    ghost held: { link.held < own_lent },
}

impl Usable {
    // A raw byte, by its piece.
    fn read(
        self,
        raw: u8,
        reply: &mut [u8; CallKind::REPLY],
        own: &mut [u8; Link::OWN],
    ) -> Result<Stepped, Refusal>
        ensures { ReadDone self.link reply.old own.old raw (stepped_from self.link result) reply.new own.new }
    {
        match Piece::read(self.link.escape, raw) {
            Piece::Pending => Ok(self.link.pausing()),
            Piece::Mark(m) => self.mark(m),
            Piece::Data(b) => self.data(b, reply, own),
        }
    }

    // A mark: inside an action it is refused.
    fn mark(self, m: u8) -> Result<Stepped, Refusal>
        ensures { MarkDone self.link m (stepped_from self.link result) }
    {
        match self.link.doing {
            None => self.opening(m),
            Some(_) => Err(Refusal::Misplaced),
        }
    }

    // A mark outside an action, by what it means.
    fn opening(self, m: u8) -> Result<Stepped, Refusal>
        ensures { OpeningDone self.link m (stepped_from self.link result) }
    {
        let meaning = Meaning::of(m);
        match meaning {
            Meaning::Unknown => Err(Refusal::NotCarried),
            Meaning::State(on) => Ok(self.link.going(Answer::EscapeState(on), None, 0)),
            Meaning::End => self.closing(),
            Meaning::Starts(action) => self.starting(action),
        }
    }

    // An action starts, unless it would open a fifth transfer.
    fn starting(self, action: Action) -> Result<Stepped, Refusal>
        requires { 0 < own_room (Some action) }
        ensures { StartDone self.link action (stepped_from self.link result) }
    {
        if !action.may_start(self.link.nested) {
            return Err(Refusal::TooDeep);
        }
        Ok(self.link.going(Answer::More, Some(action), 0))
    }

    // The end of the innermost transfer.
    fn closing(self) -> Result<Stepped, Refusal>
        ensures { ClosingDone self.link (stepped_from self.link result) }
    {
        let nested = self.link.nested;
        if nested == 0 {
            return Err(Refusal::Misplaced);
        }
        let save = nested % 2 == 0;
        Ok(self.link.nesting(Answer::Ended { save }, (nested - 1) / 2))
    }

    // A data byte: of the open action; else of the innermost transfer, where a save takes none; else of the reply.
    fn data(
        self,
        b: u8,
        reply: &mut [u8; CallKind::REPLY],
        own: &mut [u8; Link::OWN],
    ) -> Result<Stepped, Refusal>
        ensures { DataDone self.link reply.old own.old b (stepped_from self.link result) reply.new own.new }
    {
        match self.link.doing {
            None => self.outer(b, reply),
            Some(action) => self.own(action, b, own),
        }
    }

    // A data byte outside an action.
    fn outer(self, b: u8, reply: &mut [u8; CallKind::REPLY]) -> Result<Stepped, Refusal>
        ensures { ReplyByteDone self.link reply.old b (stepped_from self.link result) reply.new }
    {
        let nested = self.link.nested;
        if nested == 0 {
            return self.reply(b, reply);
        }
        if nested % 2 == 0 {
            return Err(Refusal::BadField);
        }
        Ok(self.link.going(Answer::Loaded(b), None, 0))
    }

    // A data byte outside every action and transfer goes by what waits.
    fn reply(self, b: u8, reply: &mut [u8; CallKind::REPLY]) -> Result<Stepped, Refusal>
        requires { self.link.nested ≡ 0 }
        ensures { ReplyByteDone self.link reply.old b (stepped_from self.link result) reply.new }
    {
        match self.link.wait {
            Wait::Idle => Ok(self.link.going(Answer::Character(b), None, 0)),
            Wait::Waiting(kind) => self.taking(kind, b, reply),
        }
    }

    // A byte of the reply that a call of this kind waits for.
    fn taking(
        self,
        kind: CallKind,
        b: u8,
        reply: &mut [u8; CallKind::REPLY],
    ) -> Result<Stepped, Refusal>
        requires { (self.link.wait ≡ Waiting kind) × (self.link.nested ≡ 0) }
        ensures { ReplyByteDone self.link reply.old b (stepped_from self.link result) reply.new }
    {
        let got = self.link.got;
        let at = got as usize;
        let turn = kind.shape().turn(at, b)?;
        reply[at] = b;
        Ok(match turn {
            Turn::More => Link::resting(Answer::More, Wait::Waiting(kind), got + 1),
            Turn::Done => Link::resting(Answer::Reply(at + 1), Wait::Idle, 0),
        })
    }

    // A byte of the open action's own.
    fn own(self, action: Action, b: u8, own: &mut [u8; Link::OWN]) -> Result<Stepped, Refusal>
        requires { self.link.doing ≡ Some action }
        ensures { OwnDone self.link own.old b (stepped_from self.link result) own.new }
    {
        let held = self.link.held;
        let at = held as usize;
        let turn = action.shape().turn(at, b)?;
        own[at] = b;
        Ok(match turn {
            Turn::More => self.link.going(Answer::More, Some(action), held + 1),
            Turn::Done => self.finished(action, own),
        })
    }

    // The open action has all its bytes. An error or restart closes every transfer and ends the call that waits.
    fn finished(self, action: Action, own: &[u8; Link::OWN]) -> Stepped
        requires { (action ≡ Error → 1 ≤ self.link.held) × (self.link.nested < nest_room (Some action)) }
        ensures { FinishedDone self.link action own.now result }
    {
        let answer = answers::told_by(action, self.link.held, own);
        match action {
            Action::Error => Link::resting(answer, Wait::Idle, 0),
            Action::Address(target) => placed(self.link, target, answer),
            Action::Event => self.link.going(answer, None, 0),
            Action::Block(_) => self.link.going(answer, None, 0),
        }
    }
}

// Four address bytes: those of a load or save open it.
fn placed(link: Link, target: Target, answer: Answer) -> Stepped
    requires { link.nested < nest_room (Some (Address target)) }
    ensures { result ≡ placed_from link target answer }
{
    match target {
        Target::Set | Target::Execute => link.going(answer, None, 0),
        Target::Load => link.nesting(answer, 2 * link.nested + 1),
        Target::Save => link.nesting(answer, 2 * link.nested + 2),
    }
}
