// The marks of the serial protocol, and what each may be.
#![tactic(auto)]

mod tables;

ghost use Rattle.std.specs.Prelude.{◌≡◌};
ghost use Rattle.serial_rules.specs.Marks.{outward_class, inward_class};
ghost use Rattle.marks.specs.Classes.{outward_as, inward_as};

// What a mark may be: it is not carried; outward, it starts a request; inward, it stands before an error, the Escape state, an event, an address, a
// control block, the end of a transfer, execute, a load or a save.
#[derive(Clone, Copy, PartialEq, Eq, Debug)]
pub enum Class {
    NotCarried,
    Request,
    Error,
    State,
    Event,
    Address,
    Block,
    End,
    Execute,
    Load,
    Save,
}

// The class of a mark outward, in a request.
pub fn outward_class(mark: u8) -> Class
    ensures { result ≡ outward_as (outward_class mark) }
{
    tables::OUTWARD[mark as usize]
}

// The class of a mark inward, before an action.
pub fn inward_class(mark: u8) -> Class
    ensures { result ≡ inward_as (inward_class mark) }
{
    tables::INWARD[mark as usize]
}
