// Bus addresses and places in the window, kept apart: the window check alone turns one into the other. With them the paper's
// refusal numbers, of which the check gives the first.
#![tactic(auto)]

ghost use Rattle.words.specs.Promise.{Gives};
ghost use Rattle.bus.specs.Refusal.{refusal_number, answer_number};
ghost use Rattle.bus.specs.Window.{in_window, Checked, Sought};

// Why a call is refused, in the order of the paper's table. BadImage carries the lowest field that breaks a rule, counted from 1.
#[derive(Clone, Copy, Debug, PartialEq, Eq)]
pub enum Refusal {
    NoRegister,
    BadMode,
    BadWindow,
    OtherWindow,
    Misaligned,
    Outside,
    BadSize,
    BadImage(u8),
    OddStream,
    SlotHeld,
    NoTimerRegister,
    NotFullPeriod,
    RunUnknown,
    BadLedger,
    NoPort,
    AddressTooLarge,
    NothingToKeep,
}

// The paper's number; 8 carries its field.
impl From<Refusal> for u32 {
    ghost from_gives = { λ why n. Gives (refusal_number why) n };

    fn from(why: Refusal) -> u32 {
        match why {
            Refusal::NoRegister => 1,
            Refusal::BadMode => 2,
            Refusal::BadWindow => 3,
            Refusal::OtherWindow => 4,
            Refusal::Misaligned => 5,
            Refusal::Outside => 6,
            Refusal::BadSize => 7,
            Refusal::BadImage(field) => 8 + 256 * field as u32,
            Refusal::OddStream => 9,
            Refusal::SlotHeld => 15,
            Refusal::NoTimerRegister => 16,
            Refusal::NotFullPeriod => 17,
            Refusal::RunUnknown => 18,
            Refusal::BadLedger => 19,
            Refusal::NoPort => 21,
            Refusal::AddressTooLarge => 22,
            Refusal::NothingToKeep => 23,
        }
    }
}

// What a C call returns for an answer: 0 where it is done, else the number of its refusal.
pub fn number_of<T: Drop>(answer: Result<T, Refusal>) -> u32
    ensures { Gives (answer_number answer) result }
{
    match answer {
        Ok(_) => 0,
        Err(why) => why.into(),
    }
}

// An address on the bus, or a sum of addresses: wide enough that a sum never wraps.
#[derive(Clone, Copy)]
pub struct BusAddress(pub u64);

// A place in the window. Its number is private, so that nothing but the window check makes one.
#[derive(Clone, Copy)]
pub struct Place(usize);

impl Place {
    // The place as an index into the window's bytes.
    pub fn index(self) -> usize
        ensures { Gives self.0 result }
    {
        self.0
    }
}

// The lent bytes' place on the bus: `length` of them, the first at `base`. Both are private, so that nothing but the check of the
// limits makes one.
#[derive(Clone, Copy)]
pub struct Window {
    base: u32,
    length: u32,
}

// Whether `n` bytes at an address lie among `length` bytes at `base`. No sum of addresses is taken, so none can wrap.
fn lies_in(base: u32, length: u32, address: BusAddress, n: u64) -> bool
    ensures { Gives (in_window (record { base = base; length = length }) address.0 n) result }
{
    let first = base as u64;
    let size = length as u64;
    let a = address.0;
    if a < first {
        return false;
    }
    let offset = a - first;
    if size < offset {
        return false;
    }
    n <= size - offset
}

impl Window {
    // The most bytes that a window has.
    pub const LONGEST: u64 = 65_536;

    // How many addresses the bus has.
    pub const ADDRESSES: u64 = 4_294_967_296;

    // The window of `length` bytes at `base`, where both keep the limits; else BadWindow.
    pub fn checked(base: u64, length: u64) -> Result<Window, Refusal>
        ensures { Checked base length result }
    {
        if Window::LONGEST < length {
            return Err(Refusal::BadWindow);
        }
        if Window::ADDRESSES <= base {
            return Err(Refusal::BadWindow);
        }
        if Window::ADDRESSES - length < base {
            return Err(Refusal::BadWindow);
        }
        Ok(Window {
            base: base as u32,
            length: length as u32,
        })
    }

    // The address of its first byte.
    pub fn base(self) -> u32
        ensures { Gives self.base result }
    {
        self.base
    }

    // How many bytes it has.
    pub fn size(self) -> u32
        ensures { Gives self.length result }
    {
        self.length
    }

    // Where `n` bytes at an address lie, if they are in the window.
    pub fn locate(self, address: BusAddress, n: u64) -> Option<Place>
        ensures { Sought self address.0 n result }
    {
        if !lies_in(self.base, self.length, address, n) {
            return None;
        }
        let base = self.base as u64;
        let a = address.0;
        let offset = a - base;
        Some(Place(offset as usize))
    }
}
