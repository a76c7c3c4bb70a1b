// The request reader over slices of raw bytes: step by step, and runs of plain bytes in the middle of a field at once.
#![tactic(auto)]

ghost use Rattle.std.specs.Prelude.{◌+◌, ◌≤◌, ◌<◌, ◌≡◌, true};
ghost use Rattle.request_reader.specs.View.{body_room, keeps_limits};
ghost use Rattle.request_loop.specs.Feed.{FeedDone};
ghost use Rattle.request_loop.specs.Pass.{passed_from, PassDone};

use request_reader::{Answer, Phase, Reader};

// What a slice of raw bytes gives: its first answer that is not need-more, or need-more where it ends first; the bytes used; the reader.
#[derive(Clone, Copy, PartialEq, Eq, Debug)]
pub struct Fed {
    pub answer: Answer,
    pub used: usize,
    pub reader: Reader,
}

// Raw bytes, up to the first answer that is not need-more.
pub fn feed(reader: Reader, raw: &[u8], body: &mut [u8; Reader::BODY]) -> Fed
    ensures { FeedDone reader body.old raw.now result body.new }
{
    let mut at = reader;
    let mut i: usize = 0;
    while i < raw.len() {
        let step = at.step(raw[i], body);
        at = step.reader;
        i += 1;
        let answer = step.answer;
        let Answer::More = answer else {
            return Fed {
                answer,
                used: i,
                reader: at,
            };
        };
        let n = pass(at, &raw[i..], body);
        at = passed(at, n);
        i += n;
    }
    Fed {
        answer: Answer::More,
        used: i,
        reader: at,
    }
}

// Plain raw bytes in the middle of a field: each would need more, and they are stored at once. Returns how many.
fn pass(reader: Reader, raw: &[u8], body: &mut [u8; Reader::BODY]) -> usize
    requires { keeps_limits reader ≡ true }
    ensures { PassDone reader body.old raw.now result body.new }
{
    match reader.phase {
        Phase::Inside if !reader.escape => {
            let count = reader.count as usize;
            let most = middles::ahead(reader.code, &body[..count]);
            turns::copy_plain(raw, &mut body[count..count + most])
        }
        _ => 0,
    }
}

// The reader after that many bytes of the body.
fn passed(reader: Reader, n: usize) -> Reader
    requires { 0 < n → reader.count + n ≤ body_room }
    ensures { result ≡ passed_from reader n }
{
    Reader {
        count: reader.count + n as u16,
        ..reader
    }
}
