// What the marks of the inward stream mean, and how the bytes that an action has of its own end.
#![tactic(auto)]

ghost use Rattle.std.specs.Prelude.{◌≤◌, ◌≡◌};
ghost use Rattle.serial_rules.specs.Link.{control, own_shape, own_most, meaning_of, may_start};
ghost use Rattle.serial_rules.specs.Nest.{nest_of};
ghost use Rattle.shapes.specs.Shapes.{shape_for, longest_shape};
ghost use Rattle.actions.specs.Actions.{action_for, meaning_for, opens_transfer};

use marks::Class;
use shapes::Shape;

// What four address bytes are for.
#[derive(Clone, Copy, PartialEq, Eq, Debug)]
pub enum Target {
    Set,
    Execute,
    Load,
    Save,
}

// The actions that have bytes of their own.
#[derive(Clone, Copy, PartialEq, Eq, Debug)]
pub enum Action {
    Error,
    Event,
    Address(Target),
    Block(u8),
}

// What a mark is, outside an action's own bytes: not carried; the Escape state; the end of a transfer; or the start of an action.
#[derive(Clone, Copy, PartialEq, Eq, Debug)]
pub enum Meaning {
    Unknown,
    State(bool),
    End,
    Starts(Action),
}

impl Action {
    // How the bytes of its own end.
    pub fn shape(self) -> Shape
        ensures { shape_for result ≡ own_shape (action_for self) }
    {
        match self {
            Action::Error => Shape::Text,
            Action::Event => Shape::Fixed(3),
            Action::Address(_) => Shape::Fixed(4),
            Action::Block(n) => Shape::Fixed(n),
        }
    }

    // Whether it opens a transfer.
    pub fn opens_transfer(self) -> bool
        ensures { result ≡ opens_transfer self }
    {
        matches!(self, Action::Address(Target::Load | Target::Save))
    }

    // Whether it may start where the transfers of a number are open: at most four may be.
    pub fn may_start(self, nested: u8) -> bool
        ensures { result ≡ may_start (action_for self) (nest_of nested) }
    {
        !self.opens_transfer() || nested < 15
    }

    // The most bytes of its own; 0 for a control block that no mark opens.
    pub fn most(self) -> usize
        ensures { (result ≡ own_most (action_for self)) × (result ≤ longest_shape) }
    {
        match self {
            Action::Error => Shape::LONGEST,
            Action::Event => 3,
            Action::Address(_) => 4,
            Action::Block(n) => block_most(n),
        }
    }
}

// The bytes of a control block, 1 to 127.
fn block_most(n: u8) -> usize
    ensures { (result ≡ own_most (control n)) × (result ≤ 127) }
{
    if n < 128 { usize::from(n) } else { 0 }
}

impl Meaning {
    // What a mark is, by its class.
    #[tactic(auto, using(crate::proofs::Meanings::meaning_by_class))]
    pub fn of(mark: u8) -> Meaning
        ensures { meaning_for result ≡ meaning_of mark }
    {
        match marks::inward_class(mark) {
            Class::Error => Meaning::Starts(Action::Error),
            Class::State => Meaning::State(mark % 2 == 1),
            Class::Event => Meaning::Starts(Action::Event),
            Class::Address => Meaning::Starts(Action::Address(Target::Set)),
            Class::Block => Meaning::Starts(Action::Block(mark)),
            Class::End => Meaning::End,
            Class::Execute => Meaning::Starts(Action::Address(Target::Execute)),
            Class::Load => Meaning::Starts(Action::Address(Target::Load)),
            Class::Save => Meaning::Starts(Action::Address(Target::Save)),
            Class::NotCarried | Class::Request => Meaning::Unknown,
        }
    }
}
