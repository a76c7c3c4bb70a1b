// The client's end of the serial lead: a link is idle or waits for the reply to one call, and actions and transfers may come inside it. What it may hold,
// a call begun, and the records that a raw byte can leave; which of them it leaves is crate `link_step`.
#![tactic(auto)]

ghost use Rattle.std.specs.Prelude.{◌<◌, ◌≤◌, ◌≡◌, true};
ghost use Rattle.kind.specs.Kinds.{reply_lent};
ghost use Rattle.link.specs.View.{reply_room, own_room, nest_room, usable_of, own_lent, fresh, BeginDone, BeginNoneDone};
ghost use Rattle.link.specs.Parts.{free_of, refused_from, paused_from, going_from, nesting_from, resting_with};

use actions::Action;
use answers::Answer;
use kind::CallKind;
use refusal::Refusal;

// What waits: nothing, or one call of a kind.
#[derive(Clone, Copy, PartialEq, Eq, Debug)]
pub enum Wait {
    Idle,
    Waiting(CallKind),
}

// A link: what waits, and the open action, if there is one. The reply so far is the first `got` bytes of the lent
// reply, the open action's own bytes the first `held` of the other lent bytes. `nested` is the open transfers: 0 where none is open, 2n + 1 for a
// load inside those of n, 2n + 2 for a save. A record over its limits counts as stopped.
#[derive(Clone, Copy, PartialEq, Eq, Debug)]
pub struct Link {
    pub wait: Wait,
    pub got: u16,
    pub escape: bool,
    pub doing: Option<Action>,
    pub held: u16,
    pub nested: u8,
    pub stopped: bool,
}

#[derive(Clone, Copy, PartialEq, Eq, Debug)]
pub struct Stepped {
    pub answer: Answer,
    pub link: Link,
}

// What a begun call does: it waits, or it is complete, since it has no reply byte.
#[derive(Clone, Copy, PartialEq, Eq, Debug)]
pub enum Begun {
    Waits,
    Complete,
}

#[derive(Clone, Copy, PartialEq, Eq, Debug)]
pub struct Started {
    pub answer: Result<Begun, Refusal>,
    pub link: Link,
}

impl Link {
    // The bytes lent for an action's own; those for a reply are `CallKind::REPLY`.
    pub const OWN: usize = 257;

    // A fresh link is idle.
    pub fn new() -> Link
        ensures { result ≡ fresh }
    {
        Link {
            wait: Wait::Idle,
            got: 0,
            escape: false,
            doing: None,
            held: 0,
            nested: 0,
            stopped: false,
        }
    }

    // A reset makes a link fresh, also a stopped one.
    pub fn reset(self) -> Link
        ensures { result ≡ fresh }
    {
        Link::new()
    }

    // Begins a call. Nothing but what waits changes: a call may begin inside an action or an escape pair.
    pub fn begin(self, kind: CallKind) -> Started
        ensures { BeginDone self kind result }
    {
        if let Err(refusal) = self.free() {
            return Started {
                answer: Err(refusal),
                link: self,
            };
        }
        if kind.shape().longest() == 0 {
            return Started {
                answer: Ok(Begun::Complete),
                link: self,
            };
        }
        Started {
            answer: Ok(Begun::Waits),
            link: Link {
                wait: Wait::Waiting(kind),
                got: 0,
                ..self
            },
        }
    }

    // Begins a call that is not carried: it is refused, and the link is as it was.
    pub fn begin_none(self) -> Started
        ensures { BeginNoneDone self result }
    {
        Started {
            answer: self.free().and(Err(Refusal::NotCarried)),
            link: self,
        }
    }

    // Any call is refused by a stopped link, and while another waits.
    fn free(self) -> Result<(), Refusal>
        ensures { result ≡ free_of self }
    {
        if !self.usable() {
            return Err(Refusal::Stopped);
        }
        match self.wait {
            Wait::Waiting(_) => Err(Refusal::Waiting),
            Wait::Idle => Ok(()),
        }
    }

    // Whether the link is not stopped and within its limits.
    #[tactic(auto, unfolding(crate::specs::View::usable_of))]
    pub fn usable(self) -> bool
        ensures { (result ≡ usable_of self) × (result ≡ true → (self.got < reply_lent) × (self.held < own_lent)) }
    {
        !self.stopped
            && usize::from(self.got) < reply_room(self.wait)
            && usize::from(self.held) < own_room(self.doing)
            && self.nested < nest_room(self.doing)
    }

    // An escape, which needs its second byte.
    pub fn pausing(self) -> Stepped
        ensures { result ≡ paused_from self }
    {
        Stepped {
            answer: Answer::More,
            link: Link {
                escape: true,
                stopped: false,
                ..self
            },
        }
    }

    // An answer that leaves the reply at its place, with what the actions do after it and the number of own bytes.
    pub fn going(self, answer: Answer, doing: Option<Action>, held: u16) -> Stepped
        ensures { result ≡ going_from self answer doing held }
    {
        Stepped {
            answer,
            link: Link {
                escape: false,
                doing,
                held,
                stopped: false,
                ..self
            },
        }
    }

    // An answer that opens or closes a transfer, with those that are open after it.
    pub fn nesting(self, answer: Answer, nested: u8) -> Stepped
        ensures { result ≡ nesting_from self answer nested }
    {
        Stepped {
            answer,
            link: Link {
                escape: false,
                doing: None,
                held: 0,
                nested,
                stopped: false,
                ..self
            },
        }
    }

    // A refusal: the record given, stopped.
    pub fn refused(self, n: u8) -> Stepped
        ensures { result ≡ refused_from self n }
    {
        Stepped {
            answer: Answer::Refused(n),
            link: Link {
                stopped: true,
                ..self
            },
        }
    }

    // An answer outside every action and transfer, with what waits after it and the number of its reply bytes.
    pub fn resting(answer: Answer, wait: Wait, got: u16) -> Stepped
        ensures { result ≡ resting_with answer wait got }
    {
        Stepped {
            answer,
            link: Link {
                wait,
                got,
                ..Link::new()
            },
        }
    }
}

// The most reply bytes that what waits needs; an idle link has none.
fn reply_room(wait: Wait) -> usize
    ensures { (result ≡ reply_room wait) × (result ≤ reply_lent) }
{
    match wait {
        Wait::Idle => 1,
        Wait::Waiting(kind) => kind.shape().longest(),
    }
}

// The most bytes of its own that an open action needs; where none is open there are none.
fn own_room(doing: Option<Action>) -> usize
    ensures { (result ≡ own_room doing) × (result ≤ own_lent) }
{
    match doing {
        None => 1,
        Some(action) => action.most(),
    }
}

// The number of open transfers is below this one: four of them, and three while the address of another is read.
fn nest_room(doing: Option<Action>) -> u8
    ensures { result ≡ nest_room doing }
{
    match doing {
        Some(action) if action.opens_transfer() => 15,
        _ => 31,
    }
}
