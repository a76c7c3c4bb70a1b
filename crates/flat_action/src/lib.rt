// The writer of inward actions with a number for the action and a flat record for its answer, so that it can cross to C.
#![tactic(auto)]

ghost use Rattle.std.specs.Prelude.{◌≡◌};
ghost use Rattle.flat_action.specs.Actions.{action_at, NamedDone, FlatActionDone, FlatDataDone};

use action_parts::Sent;
use actions::Target;
use flat::FlatWritten;
use refusal::Refusal;
use strings::Text;

// Writes an action: see `action_writer::write_action`. Its number is the kind under which a link tells it; another number is a field that breaks its
// rule. A number that the action does not have is not read; the Escape state is on where its number is not 0.
#[tactic(auto, using(crate::proofs::Actions::flat))]
pub fn write_action(
    action: u8,
    first: u8,
    second: u8,
    third: u8,
    fourth: u8,
    block: &[u8],
    text: &[u8],
    out: &mut [u8],
) -> FlatWritten
    ensures { FlatActionDone (action_at action first second third fourth) block.now text.now out.old result out.new }
{
    let named = action_at(action, first, second, third, fourth);
    FlatWritten::from(write_named(named, block, text, out))
}

// The same of the action that a number names, or of none. The checks come in the order of their answers.
#[tactic(auto, using(action_writer::proofs::Laws::text_too_long))]
fn write_named(
    named: Option<Sent>,
    block: &[u8],
    text: &[u8],
    out: &mut [u8],
) -> Result<usize, Refusal>
    ensures { NamedDone named block.now text.now out.old result out.new }
{
    if Text::LIMIT < text.len() {
        return Err(Refusal::TooLong);
    }
    let sent = named.ok_or(Refusal::BadField)?;
    action_writer::write_action(sent, block, text, out)
}

// The action of a number, with the numbers that it has.
#[tactic(auto, unfolding(crate::specs::Actions::action_at))]
fn action_at(n: u8, first: u8, second: u8, third: u8, fourth: u8) -> Option<Sent>
    ensures { result ≡ action_at n first second third fourth }
{
    let address = |target| Sent::Address {
        target,
        b3: first,
        b2: second,
        b1: third,
        b0: fourth,
    };
    let sent = match n {
        2 => Sent::EscapeState(first != 0),
        3 => Sent::Event {
            y: first,
            x: second,
            a: third,
        },
        4 => address(Target::Set),
        6 => Sent::Error(first),
        7 => Sent::Restart,
        9 => Sent::Block,
        10 => address(Target::Execute),
        11 => address(Target::Load),
        12 => address(Target::Save),
        14 => Sent::End,
        _ => return None,
    };
    Some(sent)
}

// Writes load data: see `fields::write_data`.
pub fn write_data(bytes: &[u8], out: &mut [u8]) -> FlatWritten
    ensures { FlatDataDone bytes.now out.old result out.new }
{
    FlatWritten::from(fields::write_data(bytes, out))
}
