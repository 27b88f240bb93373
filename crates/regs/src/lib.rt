// The mode that a core is made in, and its three registers: their numbers and bits, and what becomes of each when it is written, when a
// descriptor is written back and when the chain ends. (Altera, Embedded Peripherals, chapter 23, as the paper states it.)
#![tactic(auto)]

ghost use Rattle.words.specs.Promise.{Gives};
ghost use Rattle.regs.specs.Modes.{mode_number, ModeChecked};
ghost use Rattle.regs.specs.Status.{status_number, status_of, cleared_by, chain_ended, status_back};
ghost use Rattle.regs.specs.Control.{reset_by, count_from, run_from, started_by, raised as raised_of, pends as pends_of, line_up, counted};
ghost use Rattle.regs.specs.Offsets.{is_register, register_at};

use bus::Refusal;
use words::has;

// What moves where; numbered 0, 1, 2.
#[derive(Clone, Copy, Debug, PartialEq, Eq)]
pub enum Mode {
    MemoryToMemory,
    MemoryToStream,
    StreamToMemory,
}

impl From<Mode> for u8 {
    ghost from_gives = { λ mode n. Gives (mode_number mode) n };

    fn from(mode: Mode) -> u8 {
        match mode {
            Mode::MemoryToMemory => 0,
            Mode::MemoryToStream => 1,
            Mode::StreamToMemory => 2,
        }
    }
}

// The mode of a number, which is at most 2; else BadMode.
impl TryFrom<u32> for Mode {
    type Error = Refusal;

    ghost try_from_gives = { ModeChecked };

    fn try_from(n: u32) -> Result<Mode, Refusal> {
        match n {
            0 => Ok(Mode::MemoryToMemory),
            1 => Ok(Mode::MemoryToStream),
            2 => Ok(Mode::StreamToMemory),
            _ => Err(Refusal::BadMode),
        }
    }
}

// The status register.
#[derive(Clone, Copy, Debug, Default, PartialEq, Eq)]
pub struct Status {
    pub error: bool,
    pub eop: bool,
    pub descriptor: bool,
    pub chain: bool,
    pub busy: bool,
}

impl Status {
    pub const OFFSET: u32 = 0;

    pub const ERROR: u32 = 1;

    pub const EOP_ENCOUNTERED: u32 = 2;

    pub const DESCRIPTOR_COMPLETED: u32 = 4;

    pub const CHAIN_COMPLETED: u32 = 8;

    pub const BUSY: u32 = 16;

    // Writing 1 clears bits 0 to 3.
    pub fn cleared(self, v: u32) -> Status
        ensures { Gives (cleared_by v self) result }
    {
        Status {
            error: self.error & !has(v, Status::ERROR),
            eop: self.eop & !has(v, Status::EOP_ENCOUNTERED),
            descriptor: self.descriptor & !has(v, Status::DESCRIPTOR_COMPLETED),
            chain: self.chain & !has(v, Status::CHAIN_COMPLETED),
            busy: self.busy,
        }
    }

    // Where the chain ends: CHAIN_COMPLETED; BUSY stays.
    pub fn ended(self) -> Status
        ensures { Gives (chain_ended self) result }
    {
        let busy = self.busy;
        Status {
            chain: true,
            busy,
            ..self
        }
    }

    // DESCRIPTOR_COMPLETED; EOP_ENCOUNTERED if the last beat had EOP; ERROR if errors are not 0.
    pub fn after_back(self, eop: bool, failed: bool, busy: bool) -> Status
        ensures { Gives (status_back self eop failed busy) result }
    {
        Status {
            error: self.error | failed,
            eop: self.eop | eop,
            descriptor: true,
            busy,
            ..self
        }
    }
}

// The register's number.
impl From<Status> for u32 {
    ghost from_gives = { λ status n. Gives (status_number status) n };

    fn from(status: Status) -> u32 {
        u32::from(status.error) * Status::ERROR
            + u32::from(status.eop) * Status::EOP_ENCOUNTERED
            + u32::from(status.descriptor) * Status::DESCRIPTOR_COMPLETED
            + u32::from(status.chain) * Status::CHAIN_COMPLETED
            + u32::from(status.busy) * Status::BUSY
    }
}

// The register of a number; its bits above 4 are none.
impl From<u32> for Status {
    ghost from_gives = { λ n status. Gives (status_of n) status };

    fn from(n: u32) -> Status {
        Status {
            error: has(n, Status::ERROR),
            eop: has(n, Status::EOP_ENCOUNTERED),
            descriptor: has(n, Status::DESCRIPTOR_COMPLETED),
            chain: has(n, Status::CHAIN_COMPLETED),
            busy: has(n, Status::BUSY),
        }
    }
}

// The next run number; it stays at its largest value.
fn raised(number: u32) -> u32
    ensures { Gives (raised_of number) result }
{
    number.saturating_add(1)
}

// The control register. Bits without effect are kept as given, so it is kept as its number.
#[derive(Clone, Copy)]
pub struct Control(pub u32);

impl Control {
    pub const OFFSET: u32 = 4;

    pub const IE_ERROR: u32 = 1;

    pub const IE_EOP: u32 = 2;

    pub const IE_DESCRIPTOR: u32 = 4;

    pub const IE_CHAIN: u32 = 8;

    pub const IE_GLOBAL: u32 = 0x10;

    pub const RUN: u32 = 0x20;

    pub const STOP_DMA_ER: u32 = 0x40;

    pub const IE_MAX: u32 = 0x80;

    // MAX_DESC_PROCESSED is the eight bits from this one on.
    pub const MAX_DESC_PROCESSED: u32 = 0x100;

    pub const SW_RESET: u32 = 0x1_0000;

    pub const PARK: u32 = 0x2_0000;

    // The bits below this one are stored.
    pub const NOT_STORED: u32 = 0x4_0000;

    pub const CLEAR_INTERRUPT: u32 = 0x8000_0000;

    // Whether a write resets: SW_RESET is written and already reads 1.
    pub fn resets(self, v: u32) -> bool
        ensures { Gives (reset_by v self) result }
    {
        has(v, Control::SW_RESET) & has(self.0, Control::SW_RESET)
    }

    // Whether RUN goes 0 to 1.
    fn starts(self, v: u32) -> bool
        ensures { Gives (started_by v self) result }
    {
        !has(self.0, Control::RUN) & has(v, Control::RUN)
    }

    // The count of descriptors after a write: 0 where RUN goes 0 to 1.
    pub fn count_from(self, v: u32, count: u8) -> u8
        ensures { Gives (count_from v self count) result }
    {
        if self.starts(v) { 0 } else { count }
    }

    // The run number after a write: 1 more where RUN goes 0 to 1; a reset leaves it.
    pub fn run_from(self, v: u32, number: u32) -> u32
        ensures { Gives (run_from v self number) result }
    {
        let rises = !self.resets(v) & self.starts(v);
        if rises { raised(number) } else { number }
    }

    // Each event pends only under its own enable.
    pub fn pends(self, eop: bool, failed: bool, full: bool) -> bool
        ensures { Gives (pends_of self eop failed full) result }
    {
        has(self.0, Control::IE_DESCRIPTOR)
            | (has(self.0, Control::IE_EOP) & eop)
            | (has(self.0, Control::IE_ERROR) & failed)
            | (has(self.0, Control::IE_MAX) & full)
    }

    // Whether the interrupt line is up: exactly when an interrupt is pending and IE_GLOBAL is 1.
    pub fn raises(self, pending: bool) -> bool
        ensures { Gives (line_up self pending) result }
    {
        pending & has(self.0, Control::IE_GLOBAL)
    }
}

// The register next_descriptor_pointer.
#[derive(Clone, Copy)]
pub struct Pointer(pub u32);

impl Pointer {
    pub const OFFSET: u32 = 8;
}

// Whether there is a register at the offset.
pub fn is_register(offset: u32) -> bool
    ensures { Gives (is_register offset) result }
{
    matches!(offset, Status::OFFSET | Control::OFFSET | Pointer::OFFSET)
}

// The register at the offset, or NoRegister. Reading changes nothing.
pub fn read(status: Status, control: Control, pointer: Pointer, offset: u32) -> Result<u32, Refusal>
    ensures { Gives (register_at status control pointer offset) result }
{
    match offset {
        Status::OFFSET => Ok(status.into()),
        Control::OFFSET => Ok(control.0),
        Pointer::OFFSET => Ok(pointer.0),
        _ => Err(Refusal::NoRegister),
    }
}

// The count of descriptors after one more, and whether it reached MAX_DESC_PROCESSED.
#[derive(Clone, Copy, Debug, PartialEq, Eq)]
pub struct Count {
    pub count: u8,
    pub full: bool,
}

impl Count {
    // If MAX is 0 the count becomes 0; else one more, and on reaching MAX or more it becomes 0.
    pub fn after(count: u8, max: u8) -> Count
        ensures { Gives (counted count max) result }
    {
        let next = count as u32 + 1;
        if max == 0 {
            return Count {
                count: 0,
                full: false,
            };
        }
        if max as u32 <= next {
            return Count {
                count: 0,
                full: true,
            };
        }
        Count {
            count: next as u8,
            full: false,
        }
    }
}
