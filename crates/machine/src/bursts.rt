// Bytes moved at once in Move: as many as budget, descriptor, stream, room and window allow. Each is a step of the core.
ghost use Rattle.std.specs.Prelude.{◌≡◌, cond, List, ℕ, ◌+◌, ◌/◌, ◌≤◌, ◌<◌, length};
ghost use Rattle.descriptor.specs.Layout.{read_fixed, write_fixed};
ghost use Rattle.regs.specs.declared.Mode.TheVariants.{MemoryToMemory, MemoryToStream, StreamToMemory};
ghost use Rattle.machine.specs.Step.{source_of, destination_of};
ghost use Rattle.machine.specs.Helpers.AtOnce.{Reaches, Bursts, Unmarked};
ghost use Rattle.machine.specs.Helpers.Lending.{BurstsOn};

use crate::Work;
use crate::streams::Streams;
use bus::{BusAddress, Window};
use descriptor::DescControl;
use flow::{Absorbed, Row, absorb, copy, send};

// How many bytes of the window are in reach, and in which row of places. None are 0, and no `None`: the row moves as many, and asks no more.
#[derive(Clone, Copy)]
struct Reach {
    row: Row,
    bytes: usize,
}

// A descriptor moves no more bytes than this.
const MOST: usize = 65_535;

// How far a row goes that has so many bytes before it: at one place, as far as any.
fn span(fixed: bool, bytes: usize) -> usize
    ensures { result ≡ cond fixed 65535 bytes }
{
    if fixed { MOST } else { bytes }
}

// From an address on; none where it is outside.
fn in_reach(fixed: bool, place: Window, address: BusAddress) -> Reach
    ensures { Reaches fixed place address.0 result }
{
    let found = place.locate(address, 1);
    match found {
        None => Reach {
            row: Row { fixed, first: 0 },
            bytes: 0,
        },
        Some(at) => {
            let first = at.index();
            Reach {
                row: Row { fixed, first },
                bytes: span(fixed, place.size() as usize - first),
            }
        }
    }
}

// The less of two: `min`, with what the bursts ask of it as clauses.
pub(crate) fn least(a: usize, b: usize) -> usize
    ensures upper_bound { (result ≤ a) × (result ≤ b) }
    ensures lower_bound { 1 ≤ a → 1 ≤ b → 1 ≤ result }
{
    if a < b { a } else { b }
}

impl Work {
    // The bytes to read.
    fn reads(self, place: Window) -> Reach
        ensures { Reaches (read_fixed self.control.0) place (source_of self) result }
    {
        let control = self.control;
        in_reach(
            control.has(DescControl::READ_FIXED_ADDRESS),
            place,
            self.read_address(),
        )
    }

    // The places to write.
    fn writes(self, place: Window) -> Reach
        ensures { Reaches (write_fixed self.control.0) place (destination_of self) result }
    {
        let control = self.control;
        in_reach(
            control.has(DescControl::WRITE_FIXED_ADDRESS),
            place,
            self.write_address(),
        )
    }

    // Mode 0.
    pub(crate) fn copy_many(self, place: Window, window: &mut [u8], most: usize) -> usize
        requires { place.length ≡ length window.old }
        ensures upper_bound { result ≤ most }
        ensures by_index { (beats : List ℕ) (took : ℕ) (out : List ℕ) (made : ℕ) → Bursts MemoryToMemory place self most result self.errors
            window.old beats took out made took made window.new out }
    {
        let from = self.reads(place);
        let to = self.writes(place);
        let n = least(most, least(from.bytes, to.bytes));
        copy(window, from.row, to.row, n);
        n
    }

    // How many of the next bytes, `most` at most, make beats with neither SOP nor EOP.
    fn unmarked(self, most: usize) -> usize
        requires { 1 ≤ most }
        ensures upper_bound { result ≤ most }
        ensures unmarked { self.moved + most ≤ self.length → Unmarked self result }
    {
        let control = self.control;
        if control.has(DescControl::WRITE_FIXED_ADDRESS) & (self.moved == 0) {
            return 0;
        }
        if control.has(DescControl::GENERATE_EOP) {
            return most - 1;
        }
        most
    }

    // Mode 1.
    pub(crate) fn send_many(
        self,
        place: Window,
        window: &[u8],
        streams: &mut Streams,
        most: usize,
    ) -> usize
        requires length_value { place.length ≡ length window.now }
        requires le_most { 1 ≤ most }
        ensures upper_bound { result ≤ most }
        ensures bursts { BurstsOn MemoryToStream place self most result self.errors window.now streams.old window.now streams.new }
    {
        let from = self.reads(place);
        let out = &mut *streams.out;
        let room = least(from.bytes, out.len() / 2 - streams.made);
        let n = least(self.unmarked(most), room);
        send(window, from.row, out, streams.made, n);
        streams.made += n;
        n
    }

    // Mode 2: the bytes of the beats before the first with EOP.
    pub(crate) fn receive_many(
        self,
        place: Window,
        window: &mut [u8],
        streams: &mut Streams,
        most: usize,
    ) -> Absorbed
        requires length_value { place.length ≡ length window.old }
        ensures upper_bound { result.count ≤ most }
        ensures bursts { BurstsOn StreamToMemory place self most result.count result.errors window.old streams.old window.new streams.new }
    {
        let to = self.writes(place);
        let some = least(to.bytes, streams.beats.len() / 2 - streams.taken);
        let a = absorb(
            window,
            to.row,
            streams.beats,
            streams.taken,
            least(most, some),
            self.errors,
        );
        streams.taken += a.count;
        a
    }
}
