// The fields of a finished request, taken out of its body.
#![tactic(auto)]

ghost use Rattle.serial_rules.specs.Fields.{fields_of};
ghost use Rattle.request.specs.Promise.{AskedDone, IsRequestRead};

use calls::Call;
use places::Fields;
use strings::Text;

// The fields of a finished request, by its code and body; none where its code is that of no call. A byte that is not there counts as 0.
#[tactic(auto, using(places::proofs::Parts::fields), unfolding(serial_rules::specs::Fields::fields_of))]
pub fn read_request(code: u8, body: &[u8]) -> Option<Fields<Call>>
    ensures { IsRequestRead code body.now result }
{
    let read = match code {
        0x00 => Fields::numbers(Call::Osrdch),
        0x02 => Fields::with_text(
            Call::Oscli,
            places::part_behind(body, 0, body.len().saturating_sub(1)),
        ),
        0x04 => Fields::numbers(Call::OsbyteLow {
            x: places::byte_at(body, 0),
            a: places::byte_at(body, 1),
        }),
        0x06 => Fields::numbers(Call::OsbyteHigh {
            x: places::byte_at(body, 0),
            y: places::byte_at(body, 1),
            a: places::byte_at(body, 2),
        }),
        0x08 => Fields::with_block(
            Call::Osword {
                a: places::byte_at(body, 0),
                out_length: places::last_byte(body),
            },
            places::part_behind(body, 2, body.len().saturating_sub(3)),
        ),
        0x0A => Fields::with_block(Call::Osword0, places::part_behind(body, 0, body.len())),
        0x0C => Fields::with_block(
            Call::Osargs {
                y: places::byte_at(body, 0),
                a: places::byte_at(body, 5),
            },
            places::part_behind(body, 1, 4),
        ),
        0x0E => Fields::numbers(Call::Osbget {
            y: places::byte_at(body, 0),
        }),
        0x10 => Fields::numbers(Call::Osbput {
            y: places::byte_at(body, 0),
            a: places::byte_at(body, 1),
        }),
        0x12 => find(body),
        0x14 => Fields {
            said: Call::Osfile {
                a: places::last_byte(body),
            },
            block: places::part_behind(body, 0, Text::FILE_BLOCK),
            text: places::part_behind(body, Text::FILE_BLOCK, body.len().saturating_sub(18)),
        },
        0x16 => Fields::with_block(
            Call::Osgbpb {
                a: places::byte_at(body, 13),
            },
            places::part_behind(body, 0, 13),
        ),
        _ => return None,
    };
    Some(read)
}

// OSFIND closes where its first byte is 0, and opens else.
#[tactic(auto, using(places::proofs::Parts::fields), unfolding(serial_rules::specs::Fields::fields_of))]
fn find(body: &[u8]) -> Fields<Call>
    ensures { AskedDone body.now (fields_of 0x12 body.now) result }
{
    let a = places::byte_at(body, 0);
    if a == 0 {
        return Fields::numbers(Call::OsfindClose {
            y: places::byte_at(body, 1),
        });
    }
    Fields::with_text(
        Call::OsfindOpen { a },
        places::part_behind(body, 1, body.len().saturating_sub(2)),
    )
}
