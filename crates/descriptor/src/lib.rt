// A descriptor: 32 bytes, little-endian, at an address that is a multiple of 4. The one look at such an address, the builder, the
// reader, and what the core does with a descriptor: read it where the look finds it, and write its last four bytes back.
#![tactic(auto)]

ghost use Rattle.std.specs.Prelude.{◌≡◌, ◌+◌, ◌≤◌, length};
ghost use Rattle.words.specs.Bits.{has_bit};
ghost use Rattle.words.specs.Promise.{Gives, Leaves};
ghost use Rattle.words.specs.Slices.{part, put_at, number_at};
ghost use Rattle.words.specs.declared.Order.TheVariants.{LeastFirst};
ghost use Rattle.descriptor.specs.Layout.{bytes_for, last_four};
ghost use Rattle.descriptor.specs.Looking.{spot_of, raw_of, raw_bytes, is_zero, raw_at, named_in, look_at};
ghost use Rattle.descriptor.specs.Calls.{refusal_of, seat_of, DescriptorWasRead, WasBuilt};

use bus::{BusAddress, Place, Refusal, Window};
use words::{Order, get_u32, has, put_u32, put_words};

// The byte desc_control. Bits 3 to 6 have no effect and are kept as given.
#[derive(Clone, Copy)]
pub struct DescControl(pub u8);

impl DescControl {
    pub const GENERATE_EOP: u8 = 1;

    pub const READ_FIXED_ADDRESS: u8 = 2;

    pub const WRITE_FIXED_ADDRESS: u8 = 4;

    pub const OWNED_BY_HW: u8 = 128;

    // Whether the bit of this weight is set; none has the weight 0.
    pub fn has(self, weight: u8) -> bool
        ensures { Gives (has_bit weight self.0) result }
    {
        has(self.0 as u32, weight as u32)
    }
}

// What a descriptor asks for: the fields that its builder gives.
#[derive(Clone, Copy)]
pub struct Job {
    pub source: u32,
    pub destination: u32,
    pub next: u32,
    pub length: u16,
    pub control: DescControl,
}

// Every named field.
#[derive(Clone, Copy)]
pub struct Descriptor {
    pub source: u32,
    pub destination: u32,
    pub next: u32,
    pub length: u16,
    pub actual: u16,
    pub status: u8,
    pub control: DescControl,
}

// Why the 32 bytes of a descriptor stand nowhere.
#[derive(Clone, Copy, Debug, PartialEq, Eq)]
pub enum Miss {
    Misaligned,
    Outside,
}

// A miss as a call's refusal.
impl From<Miss> for Refusal {
    ghost from_gives = { λ miss why. Gives (refusal_of miss) why };

    fn from(miss: Miss) -> Refusal {
        match miss {
            Miss::Misaligned => Refusal::Misaligned,
            Miss::Outside => Refusal::Outside,
        }
    }
}

// One look at a descriptor's address: misaligned comes first, then that its 32 bytes are not wholly in the window. By `let .. else`: an
// `ok_or` puts a choice of the place between a link and the next, for which the walk along a chain waits.
pub fn spot_of(window: Window, address: BusAddress) -> Result<Place, Miss>
    ensures { Gives (spot_of window address.0) result }
{
    if address.0 % 4 != 0 {
        return Err(Miss::Misaligned);
    }
    let Some(place) = window.locate(address, 32) else {
        return Err(Miss::Outside);
    };
    Ok(place)
}

// The 32 bytes of a descriptor as they stand in memory: four words of eight bytes, the least significant byte of each first.
#[derive(Clone, Copy)]
pub struct Raw {
    q0: u64,
    q1: u64,
    q2: u64,
    q3: u64,
}

impl Raw {
    pub const ZERO: Raw = Raw {
        q0: 0,
        q1: 0,
        q2: 0,
        q3: 0,
    };

    // Whether all 32 bytes are zero.
    pub fn is_zero(self) -> bool
        ensures { Gives (is_zero self) result }
    {
        (self.q0 == 0) & (self.q1 == 0) & (self.q2 == 0) & (self.q3 == 0)
    }

    // Writes the 32 bytes at a place, as they stand in memory; nothing where there is no room for them.
    pub fn put(self, to: &mut [u8], at: usize)
        ensures { Leaves (put_at to.old at (raw_bytes self)) to.new }
    {
        let words = [
            (self.q0 % 0x1_0000_0000) as u32,
            (self.q0 / 0x1_0000_0000) as u32,
            (self.q1 % 0x1_0000_0000) as u32,
            (self.q1 / 0x1_0000_0000) as u32,
            (self.q2 % 0x1_0000_0000) as u32,
            (self.q2 / 0x1_0000_0000) as u32,
            (self.q3 % 0x1_0000_0000) as u32,
            (self.q3 / 0x1_0000_0000) as u32,
        ];
        put_words(Order::LeastFirst, to, at, &words);
    }

    // Every named field; reserved bytes are ignored.
    pub fn named(self) -> Descriptor
        ensures { Gives (named_in self) result }
    {
        Descriptor {
            source: (self.q0 % 0x1_0000_0000) as u32,
            destination: (self.q1 % 0x1_0000_0000) as u32,
            next: (self.q2 % 0x1_0000_0000) as u32,
            length: (self.q3 % 0x1_0000) as u16,
            actual: (self.q3 / 0x1_0000_0000 % 0x1_0000) as u16,
            status: (self.q3 / 0x1_0000_0000_0000 % 0x100) as u8,
            control: DescControl((self.q3 / 0x100_0000_0000_0000 % 0x100) as u8),
        }
    }
}

// Two words of memory as one number, the first one its low half. The place has eight bytes behind it.
fn two_words(window: &[u8], at: usize) -> u64
    requires { at + 8 ≤ length window.now }
    ensures { result ≡ number_at LeastFirst 8 window.now at }
{
    let low = get_u32(Order::LeastFirst, window, at);
    let high = get_u32(Order::LeastFirst, window, at + 4);
    low as u64 + high as u64 * 0x1_0000_0000
}

// The words that stand at a place, which has 32 bytes behind it.
fn words_at(window: &[u8], at: usize) -> Raw
    requires { at + 32 ≤ length window.now }
    ensures { result ≡ raw_of (part window.now at 32) }
{
    Raw {
        q0: two_words(window, at),
        q1: two_words(window, at + 8),
        q2: two_words(window, at + 16),
        q3: two_words(window, at + 24),
    }
}

// The 32 bytes at a place of lent bytes; zeros where 32 do not stand there.
pub fn raw_in(from: &[u8], at: usize) -> Raw
    ensures { Gives (raw_at from.now at) result }
{
    if from.len() < 32 {
        return Raw::ZERO;
    }
    if from.len() - 32 < at {
        return Raw::ZERO;
    }
    words_at(from, at)
}

// Those at a place of the window.
fn raw_at(window: &[u8], place: Place) -> Raw
    ensures { Gives (raw_at window.now place.0) result }
{
    raw_in(window, place.index())
}

// What a look at a descriptor's address finds: its 32 bytes, or why there are none.
pub type Look = Result<Raw, Miss>;

// The look at an address.
pub fn look_at(place: Window, window: &[u8], address: BusAddress) -> Look
    ensures { Gives (look_at place window.now address.0) result }
{
    let at = spot_of(place, address)?;
    Ok(raw_at(window, at))
}

// Where a descriptor stands in a lent window. The paper's order: the window, the alignment, and that its 32 bytes are in the window.
fn seat_of(length: usize, base: u64, address: BusAddress) -> Result<Place, Refusal>
    ensures { result ≡ seat_of length base address.0 }
{
    let window = Window::checked(base, length as u64)?;
    let place = spot_of(window, address)?;
    Ok(place)
}

// The descriptor at an address of a lent window at `base`.
pub fn read(window: &[u8], base: u64, address: BusAddress) -> Result<Descriptor, Refusal>
    ensures { DescriptorWasRead window.now base address.0 result }
{
    let place = seat_of(window.len(), base, address)?;
    Ok(raw_at(window, place).named())
}

// All 32 bytes at a place, as eight words.
fn put(window: &mut [u8], at: usize, job: Job)
    ensures { Leaves (put_at window.old at (bytes_for job)) window.new }
{
    let reserved: u32 = 0;
    let length = job.length as u32;
    let control = job.control.0 as u32 * 0x100_0000;
    let words = [
        job.source,
        reserved,
        job.destination,
        reserved,
        job.next,
        reserved,
        length,
        control,
    ];
    put_words(Order::LeastFirst, window, at, &words);
}

// Builds a descriptor at an address of a lent window at `base`: all its 32 bytes, and no other.
pub fn build(window: &mut [u8], base: u64, address: BusAddress, job: Job) -> Result<(), Refusal>
    ensures { WasBuilt window.old base address.0 job result window.new }
{
    let place = seat_of(window.len(), base, address)?;
    put(window, place.index(), job);
    Ok(())
}

// Writes the last four bytes of the descriptor at a place: actual, status and control.
pub fn write_back(window: &mut [u8], place: Place, actual: u16, status: u8, control: u8)
    ensures { Leaves (put_at window.old (place.0 + 28) (last_four actual status control)) window.new }
{
    let index = place.index();
    if window.len() < 28 {
        return;
    }
    if window.len() - 28 < index {
        return;
    }
    let word = actual as u32 + status as u32 * 0x1_0000 + control as u32 * 0x100_0000;
    put_u32(Order::LeastFirst, window, index + 28, word);
}
