// The export that reads a whole recorded reply, thin: that of `replay`, for C.
#![tactic(auto)]

ghost use Rattle.flat_kind.specs.Kinds.{kind_at};
ghost use Rattle.flat_recorded.specs.Recordings.{FlatRecordedDone};

use flat_recorded::FlatRecorded;
use kind::CallKind;

// A whole recorded reply: see `replay::tube_read_recorded`.
#[unsafe(no_mangle)]
pub extern "C" fn tube_read_recorded(
    call: u8,
    out_length: u8,
    raw: &[u8],
    notes: &mut [u8],
    content: &mut [u8],
    out: &mut [u8; CallKind::REPLY],
) -> FlatRecorded
    ensures { FlatRecordedDone call (kind_at call out_length) raw.now notes.old content.old out.old result notes.new content.new out.new }
{
    replay::tube_read_recorded(call, out_length, raw, notes, content, out)
}
