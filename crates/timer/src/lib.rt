// The interval timer beside the core (Altera, Embedded Peripherals, chapter 26, the 32-bit form): how it counts, its registers, its line.
#![tactic(auto)]

pub mod calls;
pub mod saved;

ghost use Rattle.std.specs.Prelude.{◌≡◌, ◌+◌, ◌/◌, ◌%◌};
ghost use Rattle.words.specs.Promise.{Gives};
ghost use Rattle.timer.specs.Counting.{created_of, next_of, tick_of, ran_of};
ghost use Rattle.timer.specs.Registers.{register_of, cleared_of, controlled_of, loaded_of, snapped_of, line_up, TimerWasRead, TimerWasWritten, TimerWasElapsed};
ghost use Rattle.timer.specs.Helpers.Parts.{standing, after};

use bus::Refusal;
use words::{flag, has};

// The timer. It counts down from the period; CONT: again and again; ITO: with an interrupt; RUN: it counts; TO: it reached zero.
#[derive(Clone, Copy, Debug, PartialEq, Eq)]
pub struct Timer {
    pub counter: u32,
    pub period: u32,
    pub snapshot: u32,
    pub cont: bool,
    pub ito: bool,
    pub run: bool,
    pub to: bool,
}

// A timer after ticks, and how many times its counter reached zero in them.
#[derive(Clone, Copy, Debug, PartialEq, Eq)]
pub struct Ran {
    pub timer: Timer,
    pub zeros: u32,
}

// The counter's new value in a tick.
fn next(counter: u32, period: u32) -> u32
    ensures { result ≡ next_of counter period }
{
    if counter == 0 {
        return period;
    }
    counter - 1
}

// How often a counter that stands at 0 is at 0 again in so many ticks.
fn rounds(period: u32, past: u32) -> u32
    ensures { result ≡ past / (period + 1) }
{
    let round = period as u64 + 1;
    (past as u64 / round) as u32
}

// Where it is then.
fn place(period: u32, past: u32) -> u32
    ensures { result ≡ after period (past % (period + 1)) }
{
    let round = period as u64 + 1;
    let rest = past as u64 % round;
    if rest == 0 {
        return 0;
    }
    (round - rest) as u32
}

impl Timer {
    // Offsets of the registers.
    pub const STATUS: u32 = 0;

    pub const CONTROL: u32 = 1;

    pub const PERIODL: u32 = 2;

    pub const PERIODH: u32 = 3;

    pub const SNAPL: u32 = 4;

    pub const SNAPH: u32 = 5;

    // Bits of status.
    pub const TO: u16 = 1;

    pub const RUN: u16 = 2;

    // Bits of control.
    pub const ITO: u16 = 1;

    pub const CONT: u16 = 2;

    pub const START: u16 = 4;

    pub const STOP: u16 = 8;

    // The period of which elapsed time can be told.
    pub const FULL: u32 = u32::MAX;

    // A timer made with this period: it stands, loaded.
    pub fn create(period: u32) -> Timer
        ensures { Gives (created_of period) result }
    {
        Timer {
            counter: period,
            period,
            snapshot: 0,
            cont: false,
            ito: false,
            run: false,
            to: false,
        }
    }

    // One tick.
    #[tactic(auto, unfolding(crate::specs::Counting::tick_of))]
    pub fn tick(self) -> Timer
        ensures { Gives (tick_of self) result }
    {
        if !self.run {
            return self;
        }
        let counter = next(self.counter, self.period);
        let run = self.counter != 0 || self.cont;
        let to = counter == 0 || self.to;
        Timer {
            counter,
            run,
            to,
            ..self
        }
    }

    // The timer with another counter and RUN, and TO where zero was reached.
    fn stood(self, counter: u32, run: bool, zeros: u32) -> Ran
        ensures { result ≡ standing counter run zeros self }
    {
        let to = zeros != 0 || self.to;
        let timer = Timer {
            counter,
            run,
            to,
            ..self
        };
        Ran { timer, zeros }
    }

    // So many ticks at once.
    #[tactic(auto, using(crate::proofs::Along::at_once))]
    pub fn ticks(self, n: u32) -> Ran
        ensures { Gives (ran_of n self) result }
    {
        if !self.run {
            return Ran {
                timer: self,
                zeros: 0,
            };
        }
        if n < self.counter {
            return self.stood(self.counter - n, true, 0);
        }
        let past = n - self.counter;
        let first = flag(self.counter != 0) as u32;
        if self.cont {
            let zeros = first + rounds(self.period, past);
            return self.stood(place(self.period, past), true, zeros);
        }
        if past == 0 {
            return self.stood(0, true, first);
        }
        let zeros = first + flag(self.period == 0) as u32;
        self.stood(self.period, false, zeros)
    }

    fn status(self) -> u16
        ensures { result ≡ register_of self 0 }
    {
        flag(self.to) as u16 * Timer::TO + flag(self.run) as u16 * Timer::RUN
    }

    fn control(self) -> u16
        ensures { result ≡ register_of self 1 }
    {
        flag(self.ito) as u16 * Timer::ITO + flag(self.cont) as u16 * Timer::CONT
    }

    // The register at an offset. Reading changes nothing.
    #[tactic(auto, unfolding(crate::specs::Registers::read_of))]
    pub fn read(self, offset: u32) -> Result<u16, Refusal>
        ensures { TimerWasRead self offset result }
    {
        match offset {
            Timer::STATUS => Ok(self.status()),
            Timer::CONTROL => Ok(self.control()),
            Timer::PERIODL => Ok((self.period % 0x1_0000) as u16),
            Timer::PERIODH => Ok((self.period / 0x1_0000) as u16),
            Timer::SNAPL => Ok((self.snapshot % 0x1_0000) as u16),
            Timer::SNAPH => Ok((self.snapshot / 0x1_0000) as u16),
            _ => Err(Refusal::NoTimerRegister),
        }
    }

    fn cleared(self) -> Timer
        ensures { result ≡ cleared_of self }
    {
        Timer { to: false, ..self }
    }

    fn controlled(self, value: u16) -> Timer
        ensures { result ≡ controlled_of value self }
    {
        let v = value as u32;
        let start = has(v, Timer::START as u32);
        let stop = has(v, Timer::STOP as u32);
        let cont = has(v, Timer::CONT as u32);
        let ito = has(v, Timer::ITO as u32);
        Timer {
            cont,
            ito,
            run: !stop && (start || self.run),
            ..self
        }
    }

    fn loaded(self, period: u32) -> Timer
        ensures { result ≡ loaded_of period self }
    {
        Timer {
            counter: period,
            period,
            run: false,
            ..self
        }
    }

    fn snapped(self) -> Timer
        ensures { result ≡ snapped_of self }
    {
        let snapshot = self.counter;
        Timer { snapshot, ..self }
    }

    // The timer after a value is written to the register at an offset.
    #[tactic(auto, unfolding(crate::specs::Registers::write_of))]
    pub fn write(self, offset: u32, value: u16) -> Result<Timer, Refusal>
        ensures { TimerWasWritten self offset value result }
    {
        match offset {
            Timer::STATUS => Ok(self.cleared()),
            Timer::CONTROL => Ok(self.controlled(value)),
            Timer::PERIODL => {
                let period = self.period / 0x1_0000 * 0x1_0000 + value as u32;
                Ok(self.loaded(period))
            }
            Timer::PERIODH => {
                let period = value as u32 * 0x1_0000 + self.period % 0x1_0000;
                Ok(self.loaded(period))
            }
            Timer::SNAPL | Timer::SNAPH => Ok(self.snapped()),
            _ => Err(Refusal::NoTimerRegister),
        }
    }

    // Whether the interrupt line is up.
    pub fn line(self) -> bool
        ensures { Gives (line_up self) result }
    {
        self.to && self.ito
    }

    // The ticks between two snapshots of this timer: it counts down, so the earlier less the later, which may wrap.
    #[tactic(auto, unfolding(crate::specs::Registers::between_of))]
    pub fn elapsed(self, earlier: u32, later: u32) -> Result<u32, Refusal>
        ensures { TimerWasElapsed self earlier later result }
    {
        if self.period != Timer::FULL {
            return Err(Refusal::NotFullPeriod);
        }
        Ok(earlier.wrapping_sub(later))
    }
}
