// The parasite's end of R2: the reply to the call that waits on the parallel side, by the byte.
#![tactic(auto)]

ghost use Rattle.std.specs.Prelude.{◌≤◌};
ghost use Rattle.serial_rules.specs.Reply.{longest};
ghost use Rattle.shapes.specs.Shapes.{shape_for};
ghost use Rattle.kind.specs.Kinds.{reply_lent};
ghost use Rattle.reply_reader.specs.Promise.{TakeDone, ShapeDone};

use kind::CallKind;
use refusal::Refusal;
use shapes::Shape;
use turns::Turn;

// What a byte does to the reply, and how many bytes of it there are then; a refused byte is not counted.
#[derive(Clone, Copy, PartialEq, Eq, Debug)]
pub struct Taken {
    pub turn: Result<Turn, Refusal>,
    pub count: u16,
}

// One byte of the reply to a call of this kind. The reply so far is the first `count` bytes of the lent reply.
pub fn take_byte(kind: CallKind, count: u16, byte: u8, reply: &mut [u8; CallKind::REPLY]) -> Taken
    ensures { TakeDone kind count byte reply.old result reply.new }
{
    take_shaped(kind.shape(), count, byte, reply)
}

// The same by the reply's shape.
fn take_shaped(shape: Shape, count: u16, byte: u8, reply: &mut [u8; CallKind::REPLY]) -> Taken
    ensures { (longest (shape_for shape) ≤ reply_lent) × ShapeDone (shape_for shape) count byte reply.old result reply.new }
{
    let at = count as usize;
    if shape.longest() <= at {
        return Taken {
            turn: Err(Refusal::Stopped),
            count,
        };
    }
    let turn = shape.turn(at, byte);
    match turn {
        Err(_) => Taken { turn, count },
        Ok(_) => {
            reply[at] = byte;
            Taken {
                turn,
                count: count + 1,
            }
        }
    }
}
