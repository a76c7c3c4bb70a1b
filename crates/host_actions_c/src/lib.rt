// The exports that write what a host sends beside replies, thin: those of `host_actions`, for C.
#![tactic(auto)]

ghost use Rattle.flat_action.specs.Actions.{action_at, FlatActionDone, FlatDataDone};

use flat::FlatWritten;

// Writes an action: see `host_actions::tube_write_action`.
#[unsafe(no_mangle)]
pub extern "C" fn tube_write_action(
    action: u8,
    first: u8,
    second: u8,
    third: u8,
    fourth: u8,
    block: &[u8],
    text: &[u8],
    out: &mut [u8],
) -> FlatWritten
    ensures { FlatActionDone (action_at action first second third fourth) block.now text.now out.old result out.new }
{
    host_actions::tube_write_action(action, first, second, third, fourth, block, text, out)
}

// Writes load data: see `host_actions::tube_write_data`.
#[unsafe(no_mangle)]
pub extern "C" fn tube_write_data(bytes: &[u8], out: &mut [u8]) -> FlatWritten
    ensures { FlatDataDone bytes.now out.old result out.new }
{
    host_actions::tube_write_data(bytes, out)
}
