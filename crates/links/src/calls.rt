// The C calls over a chain: the answers of the check and of mending as bytes, the most significant byte of each number first.
ghost use Rattle.std.specs.Prelude.{◌≡◌, length};
ghost use Rattle.words.specs.Promise.{Leaves};
ghost use Rattle.bus.specs.Refusal.{answer_number};
ghost use Rattle.links.specs.Calls.{verdict_bytes, ChainChecked, mended_bytes, ChainMended};

use crate::mending::{Change, mend};
use crate::{Verdict, check};
use bus::Refusal;
use words::{Order, put_u16, put_u32, put_words};

// The sizes of the answers.
const VERDICT: usize = 10;

const CHANGE: usize = 8;

// What is told, and of which descriptor.
fn put_verdict(answer: &mut [u8], verdict: Verdict)
    requires { length answer.old ≡ 10 }
    ensures { Leaves (verdict_bytes verdict) answer.new }
{
    let stop = verdict.stop;
    let words = [stop.position, stop.address];
    put_u16(Order::MostFirst, answer, 0, verdict.kind.into());
    put_words(Order::MostFirst, answer, 2, &words);
}

// Checks the chain from `pointer` on, and tells the verdict in the 10 bytes of `answer`.
pub fn check_chain(window: &[u8], base: u64, pointer: u32, answer: &mut [u8]) -> Result<(), Refusal>
    ensures { ChainChecked window.now base pointer answer.old (answer_number result) answer.new }
{
    if answer.len() != VERDICT {
        return Err(Refusal::BadSize);
    }
    let verdict = check(window, base, pointer)?;
    put_verdict(answer, verdict);
    Ok(())
}

// Whether a byte was changed, and which one; all zero where none was.
fn put_change(answer: &mut [u8], mended: Option<Change>)
    requires { length answer.old ≡ 8 }
    ensures { Leaves (mended_bytes (Ok mended)) answer.new }
{
    let nothing = Change {
        address: 0,
        before: 0,
        after: 0,
    };
    let (told, change) = match mended {
        None => (0, nothing),
        Some(change) => (1, change),
    };
    let both = change.before as u16 * 256 + change.after as u16;
    put_u16(Order::MostFirst, answer, 0, told);
    put_u32(Order::MostFirst, answer, 2, change.address);
    put_u16(Order::MostFirst, answer, 6, both);
}

// Mends the chain from `pointer` on, and tells in the 8 bytes of `answer` what was changed.
pub fn mend_chain(
    window: &mut [u8],
    base: u64,
    pointer: u32,
    answer: &mut [u8],
) -> Result<(), Refusal>
    ensures { ChainMended window.old base pointer answer.old (answer_number result) window.new answer.new }
{
    if answer.len() != CHANGE {
        return Err(Refusal::BadSize);
    }
    let mended = mend(window, base, pointer)?;
    put_change(answer, mended);
    Ok(())
}
