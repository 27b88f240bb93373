// Mending a chain in a memory dump: the good front of it is kept.
ghost use Rattle.std.specs.Prelude.{◌≡◌, length};
ghost use Rattle.links.specs.Helpers.Cuts.{cut_from, KeepsFront, WasCut};
ghost use Rattle.links.specs.Mending.{cut_of, WasMended};
ghost use Rattle.links.specs.Theorems.{Limited};

use crate::{Kind, on_bus, walk};
use bus::{Refusal, Window};

// The byte that was changed: desc_control of the descriptor at an address, before and after.
#[derive(Clone, Copy, Debug, PartialEq, Eq)]
pub struct Change {
    pub address: u32,
    pub before: u8,
    pub after: u8,
}

// Clears OWNED in the descriptor at `last`, the one just before a defect at this position.
fn cut(
    bytes: &mut [u8],
    window: Window,
    position: u32,
    last: u32,
) -> Result<Option<Change>, Refusal>
    requires bytes_len { length bytes.old ≡ window.length }
    requires keeps_front { KeepsFront window position last }
    ensures { WasCut window bytes.old (cut_from position last) result bytes.new }
{
    if position == 0 {
        return Err(Refusal::NothingToKeep);
    }
    let found = window.locate(on_bus(last), 32);
    let place = found.ok_or(Refusal::NothingToKeep)?;
    let control = place.index() + 31;
    let before = bytes[control];
    let after = before % 128;
    bytes[control] = after;
    Ok(Some(Change {
        address: last,
        before,
        after,
    }))
}

// Mends the chain in a window that keeps the limits and is lent whole.
fn mend_in(bytes: &mut [u8], window: Window, pointer: u32) -> Result<Option<Change>, Refusal>
    requires limited { Limited window }
    requires bytes_len { length bytes.old ≡ window.length }
    ensures { WasCut window bytes.old (cut_of window bytes.old pointer) result bytes.new }
{
    let walked = walk(bytes, window, pointer);
    let verdict = walked.verdict;
    if verdict.kind == Kind::Sound {
        return Ok(None);
    }
    cut(bytes, window, verdict.stop.position, walked.last)
}

// Mends the chain from `pointer` on, in a dump at `base` whose bytes are lent: the byte that was changed, or none where the chain is
// sound.
pub fn mend(window: &mut [u8], base: u64, pointer: u32) -> Result<Option<Change>, Refusal>
    ensures { WasMended window.old base pointer result window.new }
{
    let place = Window::checked(base, window.len() as u64)?;
    mend_in(window, place, pointer)
}
