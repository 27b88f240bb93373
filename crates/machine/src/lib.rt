// The SG-DMA core: what it keeps, its registers, its saved image, its steps and runs. The machine goes into each call by value and
// comes back from it. (Altera, Embedded Peripherals, chapter 23, as the paper states it.)
#![tactic(auto)]

pub mod back;
pub mod bursts;
pub mod fetch;
pub mod moves;
pub mod registers;
pub mod runs;
pub mod saved;
pub mod steps;
pub mod streams;

ghost use Rattle.words.specs.Promise.{Gives};
ghost use Rattle.machine.specs.State.{phase_number};
ghost use Rattle.machine.specs.Run.{reason_number};

use bus::Window;
use descriptor::{DescControl, Look};
use regs::{Control, Mode, Pointer, Status};

// The descriptor in hand: its fields as fetched, and what was done of it. In a phase its address and control share the places of a
// fault's address and code, each of the same width, so that `load` writes none of them in pieces. Of six orders this was the fastest.
#[derive(Clone, Copy)]
pub struct Work {
    pub at: u32,
    pub control: DescControl,
    pub errors: u8,
    pub length: u16,
    pub source: u32,
    pub destination: u32,
    pub moved: u16,
    pub eop: bool,
}

// Why the machine stands still until a reset: the address, and the paper's code, 10 to 14. The code is a number and no enum, as an image
// may hold one that is none: the rules of its field leave these.
#[derive(Clone, Copy)]
pub struct Fault {
    pub address: u32,
    pub code: u8,
}

impl Fault {
    pub const MISALIGNED: u8 = 10;

    pub const DESCRIPTOR_OUTSIDE: u8 = 11;

    pub const NO_LENGTH: u8 = 12;

    pub const SOURCE_OUTSIDE: u8 = 13;

    pub const DESTINATION_OUTSIDE: u8 = 14;
}

// What a phase keeps stands in the phase; numbered 0 to 6.
#[derive(Clone, Copy)]
pub enum Phase {
    Rest,
    Fetch,
    Move(Work),
    WriteBack(Work),
    Ended,
    Halted,
    Faulted(Fault),
}

// Its number in an image.
impl From<Phase> for u8 {
    ghost from_gives = { λ phase n. Gives (phase_number phase) n };

    fn from(phase: Phase) -> u8 {
        match phase {
            Phase::Rest => 0,
            Phase::Fetch => 1,
            Phase::Move(_) => 2,
            Phase::WriteBack(_) => 3,
            Phase::Ended => 4,
            Phase::Halted => 5,
            Phase::Faulted(_) => 6,
        }
    }
}

// What every step sees of the machine. The small fields fill eight bytes: beside a gap the compiler takes them apart and together again.
#[derive(Clone, Copy)]
pub struct Core {
    mode: Mode,
    pending: bool,
    count: u8,
    status: Status,
    window: Window,
    control: Control,
    pointer: Pointer,
    phase: Phase,
}

// What was read ahead: the look at the pointer's address, or nothing.
pub type Slot = Option<Look>;

// The core, and beside it what it has read ahead, which Fetch alone sees, and the run number. Its parts are private, so that each machine
// comes from `fresh`, `load` or a call on a machine, and keeps the image rules.
#[derive(Clone, Copy)]
pub struct Machine {
    core: Core,
    slot: Slot,
    run: u32,
}

// Why a run ends; numbered 0 to 7.
#[derive(Clone, Copy, Debug, PartialEq, Eq)]
pub enum Reason {
    Rest,
    Ended,
    Halted,
    Faulted,
    NeedsInput,
    OutputFull,
    Budget,
    LedgerFull,
}

// The paper's number.
impl From<Reason> for u16 {
    ghost from_gives = { λ reason n. Gives (reason_number reason) n };

    fn from(reason: Reason) -> u16 {
        match reason {
            Reason::Rest => 0,
            Reason::Ended => 1,
            Reason::Halted => 2,
            Reason::Faulted => 3,
            Reason::NeedsInput => 4,
            Reason::OutputFull => 5,
            Reason::Budget => 6,
            Reason::LedgerFull => 7,
        }
    }
}

// The machine after a step, with the beats that the step took and made, and the records used then.
#[derive(Clone, Copy)]
pub struct Progress {
    pub machine: Machine,
    pub taken: usize,
    pub made: usize,
    pub used: u32,
}

// What is lent to a step or a run: the window, the beats, the room for output, and the ledger, of which so many records are used.
#[derive(Drop)]
pub struct Loan<'a> {
    pub window: &'a mut [u8],
    pub beats: &'a [u8],
    pub out: &'a mut [u8],
    pub ledger: &'a mut [u8],
    pub used: u32,
}

// What one step answers: where it led, or why it cannot be taken. No `Result`, since a step that cannot be taken is no refusal: that is the
// error of the `Result` in which this stands.
#[derive(Clone, Copy)]
pub enum StepAnswer {
    Taken(Progress),
    Stopped(Reason),
}

// The machine after a run, the reason found there, the steps, beats taken and beats made, and the records used then.
#[derive(Clone, Copy)]
pub struct Ran {
    pub machine: Machine,
    pub reason: Reason,
    pub steps: u32,
    pub taken: usize,
    pub made: usize,
    pub used: u32,
}
