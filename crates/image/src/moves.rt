// Order 5: old images forward, new ones back. The editions are told by their sizes; the first part of an image is the same in all of
// them, but for the edition's number in its first four bits.
ghost use Rattle.std.specs.Prelude.{◌≡◌, ◌≤◌, ◌<◌, length, take, get_or, ok_or};
ghost use Rattle.words.specs.Promise.{Leaves};
ghost use Rattle.bus.specs.declared.Refusal.TheVariants.{BadSize};
ghost use Rattle.bus.specs.Refusal.{answer_number};
ghost use Rattle.image.specs.Rules.{told};
ghost use Rattle.image.specs.Editions.{edition_sized, edition_of, broken_in, ImageMoved};
ghost use Rattle.image.specs.Helpers.InBytes.{resized, moved_bytes};

use crate::{EDITION, EMPTY, SIZE, TAIL, broken, front, tail_in};
use bus::Refusal;

// The edition of an image of so many bytes. One of edition 1 ends where what edition 2 adds begins.
#[tactic(auto, unfolding(crate::specs::Editions::edition_sized))]
fn edition_sized(size: usize) -> Result<u8, Refusal>
    ensures { result ≡ ok_or (told (edition_sized size)) BadSize }
{
    match size {
        TAIL => Ok(1),
        SIZE => Ok(2),
        _ => Err(Refusal::BadSize),
    }
}

// The lowest field that breaks a rule of its edition. But for the edition's number these are the rules of the latest, over fields of which
// those that it lacks are zero.
pub(crate) fn broken_in(edition: u8, from: &[u8]) -> Option<u8>
    requires from_value { edition_of from.now ≡ edition }
    requires fact { edition ≡ 0 → ⊥ }
    ensures { result ≡ told (broken_in from.now) }
{
    let mut f = front(from);
    if f.edition != edition {
        return Some(1);
    }
    f.edition = EDITION;
    broken(f, tail_in(from))
}

// Fills `to` with the bytes of `from`, and with zeros where there are no more. A loop, since a copy by the library would be a call of
// memmove, which the archive for C would then need from outside.
fn copy_front(from: &[u8], to: &mut [u8])
    ensures { Leaves (resized (length to.old) from.now) to.new }
{
    for (i, byte) in to.iter_mut().enumerate() {
        *byte = from.get(i).copied().unwrap_or(0);
    }
}

// The same, with the number of an edition.
fn put_moved(edition: u8, from: &[u8], to: &mut [u8])
    requires edition_bound { edition < 16 }
    requires to_nonzero { 0 < length to.old }
    ensures { Leaves (moved_bytes edition (length to.old) from.now) to.new }
{
    copy_front(from, to);
    let first = from.get(0).copied().unwrap_or(0);
    to[0] = edition * 16 + first % 16;
}

// Moves an image to another edition: that of the size of `to`. Where it is refused nothing is written.
pub fn move_image(from: &[u8], to: &mut [u8]) -> Result<(), Refusal>
    ensures { ImageMoved from.now to.old (answer_number result) to.new }
{
    let old = edition_sized(from.len())?;
    let new = edition_sized(to.len())?;
    if let Some(field) = broken_in(old, from) {
        return Err(Refusal::BadImage(field));
    }
    let t = tail_in(from);
    let held = t.kind != EMPTY;
    if held & (new < 2) {
        return Err(Refusal::SlotHeld);
    }
    put_moved(new, from, to);
    Ok(())
}
