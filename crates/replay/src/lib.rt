// The export that reads a whole recorded reply, compiled apart from the others: here what notes are made of has one caller, and in the loop over slices
// another one, so that it stays inlined in both.
#![tactic(auto)]

ghost use Rattle.flat_kind.specs.Kinds.{kind_at};
ghost use Rattle.flat_recorded.specs.Recordings.{FlatRecordedDone};

use flat_recorded::FlatRecorded;
use kind::CallKind;

// A whole recorded reply: see `flat_recorded::read_recorded`.
pub fn tube_read_recorded(
    call: u8,
    out_length: u8,
    raw: &[u8],
    notes: &mut [u8],
    content: &mut [u8],
    out: &mut [u8; CallKind::REPLY],
) -> FlatRecorded
    ensures { FlatRecordedDone call (kind_at call out_length) raw.now notes.old content.old out.old result notes.new content.new out.new }
{
    flat_recorded::read_recorded(call, out_length, raw, notes, content, out)
}
