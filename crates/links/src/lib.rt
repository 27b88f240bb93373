// The chain in memory: whether it has demand 3's form, and mending one that has not.
#![tactic(auto)]

pub mod calls;
pub mod mending;

ghost use Rattle.std.specs.Prelude.{◌≡◌, ◌≤◌};
ghost use Rattle.words.specs.Promise.{Gives};
ghost use Rattle.links.specs.Calls.{kind_number, WasChecked};
ghost use Rattle.links.specs.Helpers.Cells.{free_in};
ghost use Rattle.links.specs.Helpers.Walks.{Walks};
ghost use Rattle.links.specs.Theorems.{Limited};
ghost use Rattle.links.specs.Verdicts.{verdict, kind_of};

use bus::{BusAddress, Refusal, Window};
use descriptor::{DescControl, Miss, raw_in, spot_of};

// Where a walk along a chain stops: the position of that descriptor, from 0, and its address.
#[derive(Clone, Copy, Debug, PartialEq, Eq)]
pub struct Stop {
    pub position: u32,
    pub address: u32,
}

// The kinds of verdict: a sound chain, and what its first defect can be.
#[derive(Clone, Copy, Debug, PartialEq, Eq)]
pub enum Kind {
    Sound,
    Misaligned,
    Outside,
    Overlaps,
}

// The number that an answer in bytes tells.
impl From<Kind> for u16 {
    ghost from_gives = { λ kind n. Gives (kind_number kind) n };

    fn from(kind: Kind) -> u16 {
        match kind {
            Kind::Sound => 0,
            Kind::Misaligned => 1,
            Kind::Outside => 2,
            Kind::Overlaps => 3,
        }
    }
}

// A descriptor whose 32 bytes stand nowhere is a defect.
impl From<Miss> for Kind {
    ghost from_gives = { λ miss kind. Gives (kind_of miss) kind };

    fn from(miss: Miss) -> Kind {
        match miss {
            Miss::Misaligned => Kind::Misaligned,
            Miss::Outside => Kind::Outside,
        }
    }
}

// What the check says of a chain: the kind, and the stop at its end or its first defect.
#[derive(Clone, Copy, Debug, PartialEq, Eq)]
pub struct Verdict {
    pub kind: Kind,
    pub stop: Stop,
}

// A walk's verdict, and the address of the descriptor just before the one that it tells of; the pointer where there is none.
#[derive(Clone, Copy)]
struct Walked {
    verdict: Verdict,
    last: u32,
}

// An address that a register or a descriptor holds.
fn on_bus(address: u32) -> BusAddress
    ensures { result.0 ≡ address }
{
    BusAddress(address as u64)
}

// Whether 32 places are clear of all that the cells tell of. Cell c tells of the places from 32 c on: 0, or one more than where in it
// a descriptor starts; two that are apart never start in one cell.
fn free(cells: &[u8; 2050], place: usize) -> bool
    requires le_place { 32 ≤ place }
    requires place_bound { place ≤ 65536 }
    ensures { result ≡ free_in cells.now place }
{
    let c = place / 32;
    let first = (place % 32) as u8;
    let here = cells[c];
    let low = cells[c - 1];
    let high = cells[c + 1];
    (here == 0) & (low <= first + 1) & ((high == 0) | (first < high))
}

// A walk that stops with a verdict of this kind.
fn stopped(kind: Kind, stop: Stop, last: u32) -> Walked
    ensures { Gives (record { verdict = verdict kind stop; last = last }) result }
{
    let verdict = Verdict { kind, stop };
    Walked { verdict, last }
}

// The walk along a chain. Places are counted from 32 on, so that a cell is below each.
// Its three arguments stay apart: mending lends the bytes to the walk, and then changes them, so a struct would have to be made twice.
fn walk(bytes: &[u8], window: Window, pointer: u32) -> Walked
    requires { Limited window }
    ensures { Walks window bytes.now pointer result }
{
    // A rule of the project: no heap. So the cells are an array of the greatest size, with one more at either end.
    let mut cells = [0u8; 2050];
    let mut last = pointer;
    let mut address = pointer;
    for position in 0..2049 {
        let stop = Stop { position, address };
        let place = match spot_of(window, on_bus(address)) {
            Ok(place) => place,
            Err(miss) => return stopped(miss.into(), stop, last),
        };
        let at = place.index();
        let p = at + 32;
        if !free(&cells, p) {
            return stopped(Kind::Overlaps, stop, last);
        }
        let d = raw_in(bytes, at).named();
        if !d.control.has(DescControl::OWNED_BY_HW) {
            return stopped(Kind::Sound, stop, last);
        }
        cells[p / 32] = (p % 32 + 1) as u8;
        last = address;
        address = d.next;
    }
    // No walk comes here: 2,049 descriptors are never apart in a window.
    let position = 2049;
    stopped(Kind::Overlaps, Stop { position, address }, last)
}

// Checks the chain from `pointer` on, in a window at `base` whose bytes are lent.
pub fn check(window: &[u8], base: u64, pointer: u32) -> Result<Verdict, Refusal>
    ensures { WasChecked window.now base pointer result }
{
    let place = Window::checked(base, window.len() as u64)?;
    Ok(walk(window, place, pointer).verdict)
}
