// Whether a heading and fields of data bytes fit into so many raw bytes.
#![tactic(auto)]

ghost use Rattle.std.specs.Prelude.{◌≡◌, ◌<◌, ◌+◌, leb, length, MatchOption};
ghost use Rattle.room.specs.Carriers.{joined, coded, added_on, parts_raw};

use carrier::Carrier;

// Whether a heading and fields fit into `room` bytes: on the serial lead each escape byte doubled, on the parallel side as they are. The
// escape bytes are counted only where all fields doubled would not fit.
#[tactic(auto, using(crate::proofs::Coded::whole))]
pub fn parts_fit(carrier: Carrier, heading: &[u8], fields: &[&[u8]], room: usize) -> bool
    ensures { result ≡ leb (length (parts_raw carrier heading.now fields.now)) room }
{
    let Some(spare) = room.checked_sub(heading.len()) else {
        return false;
    };
    fields_fit(Carrier::Parallel, fields, spare / 2) || fields_fit(carrier, fields, spare)
}

// Whether fields fit into `room` bytes. What is left of the room is counted down, so that no sum overflows.
#[tactic(auto, using(crate::proofs::Coded::measured))]
fn fields_fit(carrier: Carrier, fields: &[&[u8]], room: usize) -> bool
    ensures { result ≡ leb (length (coded carrier (joined fields.now))) room }
{
    let mut left = room;
    for field in fields {
        let Some(rest) = left_after(carrier, field, left) else {
            return false;
        };
        left = rest;
    }
    true
}

// What data bytes leave of the room; nothing where there was too little.
#[tactic(auto, using(crate::proofs::Coded::coded_length))]
fn left_after(carrier: Carrier, bytes: &[u8], room: usize) -> Option<usize>
    ensures { MatchOption result (room < length (coded carrier bytes.now)) (λ left. left + length (coded carrier bytes.now) ≡ room) }
{
    let spare = room.checked_sub(bytes.len())?;
    spare.checked_sub(added(carrier, bytes))
}

// How many bytes the carrier adds to data bytes: on the serial lead one for each escape byte.
#[tactic(auto, unfolding(crate::specs::Carriers::added_on))]
fn added(carrier: Carrier, bytes: &[u8]) -> usize
    ensures { result ≡ added_on carrier bytes.now }
{
    match carrier {
        Carrier::Serial => escape::count_escapes(bytes),
        Carrier::Parallel => 0,
    }
}
