// The exports that write what a host sends beside replies: inward actions and load data. Answers are numbers and records flat.
#![tactic(auto)]

ghost use Rattle.flat_action.specs.Actions.{action_at, FlatActionDone, FlatDataDone};

use flat::FlatWritten;

// Writes an action: see `flat_action::write_action`.
pub fn tube_write_action(
    action: u8,
    first: u8,
    second: u8,
    third: u8,
    fourth: u8,
    block: &[u8],
    text: &[u8],
    out: &mut [u8],
) -> FlatWritten
    ensures { FlatActionDone (action_at action first second third fourth) block.now text.now out.old result out.new }
{
    flat_action::write_action(action, first, second, third, fourth, block, text, out)
}

// Writes load data: see `flat_action::write_data`.
pub fn tube_write_data(bytes: &[u8], out: &mut [u8]) -> FlatWritten
    ensures { FlatDataDone bytes.now out.old result out.new }
{
    flat_action::write_data(bytes, out)
}
