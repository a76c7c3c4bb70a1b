// What stands in the middle of an encoding.
#![tactic(auto)]

ghost use Rattle.std.specs.Prelude.{◌≡◌};
ghost use Rattle.fields.specs.Middle.{middle_in};

// What stands between the first numbers and the last: a block, a string or neither.
#[derive(Clone, Copy, PartialEq, Eq, Debug)]
pub enum Middle {
    Nothing,
    Block,
    Text,
}

impl Middle {
    // The one of the block and the string that stands there.
    pub fn of<'a>(self, block: &'a [u8], text: &'a [u8]) -> &'a [u8]
        ensures { result.now ≡ middle_in self block.now text.now }
    {
        match self {
            Middle::Nothing => &[],
            Middle::Block => block,
            Middle::Text => text,
        }
    }
}
