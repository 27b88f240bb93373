// Move: one byte of the descriptor in hand, by the mode; and whether it can be moved.
ghost use Rattle.std.specs.Prelude.{◌≡◌, true, cond, List, ℕ, ◌*◌, ◌/◌, ◌≤◌, ◌<◌, length};
ghost use Rattle.bus.specs.Window.{in_window};
ghost use Rattle.image.specs.Rules.{asked as asked_of};
ghost use Rattle.flow.specs.Rows.{landing};
ghost use Rattle.regs.specs.Modes.{mode_number};
ghost use Rattle.machine.specs.declared.Phase.TheVariants.{Move, WriteBack};
ghost use Rattle.machine.specs.Step.{World, source_of, destination_of, with_byte, onward as onward_of, beat_for};
ghost use Rattle.machine.specs.Step.{copy_step, send_step, receive_from, move_step};
ghost use Rattle.machine.specs.Helpers.Waiting.{Waits};
ghost use Rattle.machine.specs.Helpers.Turns.{Still};
ghost use Rattle.machine.specs.Helpers.Resume.{InMove};
ghost use Rattle.machine.specs.Helpers.Lending.{GoesOn, Applies};

use crate::streams::Streams;
use crate::{Core, Fault, Phase, Reason, Work};
use bus::BusAddress;
use descriptor::DescControl;
use flow::output_beat;
use regs::Mode;

// The bytes that a length asks for: in mode 2 a 0 means 65,535. Crate image has the same of a mode that may be none.
pub(crate) fn asked(mode: Mode, length: u16) -> u16
    ensures { result ≡ asked_of (mode_number mode) length }
{
    match mode {
        Mode::MemoryToMemory => length,
        Mode::MemoryToStream => length,
        Mode::StreamToMemory => if length == 0 { 65_535 } else { length },
    }
}

// Byte i is at start + i, without i under the FIXED bit: an address, of 64 bits, where `Row` of flow counts places.
fn byte_address(fixed: bool, start: u32, i: u16) -> u64
    ensures { result ≡ landing fixed start i }
{
    if fixed {
        start as u64
    } else {
        start as u64 + i as u64
    }
}

// The phase of a descriptor in hand: WriteBack when its bytes are moved.
fn phase_with(k: Work, done: bool) -> Phase
    ensures { result ≡ cond done (WriteBack k) (Move k) }
{
    if done {
        Phase::WriteBack(k)
    } else {
        Phase::Move(k)
    }
}

impl Work {
    // Where the next byte is read. Reading and writing are two functions: each has its bit, its field and its definition in the paper's words.
    pub(crate) fn read_address(self) -> BusAddress
        ensures { result.0 ≡ source_of self }
    {
        let control = self.control;
        let fixed = control.has(DescControl::READ_FIXED_ADDRESS);
        BusAddress(byte_address(fixed, self.source, self.moved))
    }

    // Where the next byte is written.
    pub(crate) fn write_address(self) -> BusAddress
        ensures { result.0 ≡ destination_of self }
    {
        let control = self.control;
        let fixed = control.has(DescControl::WRITE_FIXED_ADDRESS);
        BusAddress(byte_address(fixed, self.destination, self.moved))
    }

    // One byte more, its errors gathered by OR.
    fn with_byte(self, errors: u8, eop: bool) -> Work
        requires { self.moved < 65535 }
        ensures { result ≡ with_byte errors eop self }
    {
        Work {
            errors: self.errors | errors,
            moved: self.moved + 1,
            eop,
            ..self
        }
    }

    // The output beat of the next byte: SOP on byte 0 if WRITE_FIXED, EOP on byte L-1 if GENERATE_EOP.
    fn beat(self, byte: u8) -> u16
        ensures { result ≡ beat_for self byte }
    {
        let control = self.control;
        let next = self.moved as u32 + 1;
        let sop = control.has(DescControl::WRITE_FIXED_ADDRESS) & (self.moved == 0);
        let eop = control.has(DescControl::GENERATE_EOP) & (next == self.length as u32);
        output_beat(sop, eop, byte)
    }
}

impl Core {
    // When L bytes are moved or a taken beat had EOP, go to WriteBack.
    pub(crate) fn with_work(self, k: Work) -> Core
        ensures { result ≡ onward_of self k }
    {
        let mode = self.mode;
        let done = k.eop | (k.moved == asked(mode, k.length));
        Core {
            phase: phase_with(k, done),
            ..self
        }
    }

    // One byte more.
    fn onward(self, k: Work, errors: u8, eop: bool) -> Core
        requires { k.moved < 65535 }
        ensures { result ≡ onward_of self (with_byte errors eop k) }
    {
        self.with_work(k.with_byte(errors, eop))
    }

    // Mode 0: source outside, 13; destination outside, 14.
    fn copy_step(self, k: Work, window: &mut [u8]) -> Core
        requires in_move { InMove self k (length window.old) }
        ensures { Still (λ (w : World). copy_step w k) self window.old result window.new }
    {
        let a = k.read_address();
        let b = k.write_address();
        let Some(from) = self.window.locate(a, 1) else {
            return self.missed(Fault::SOURCE_OUTSIDE, a);
        };
        let Some(to) = self.window.locate(b, 1) else {
            return self.missed(Fault::DESTINATION_OUTSIDE, b);
        };
        let i = from.index();
        let j = to.index();
        window[j] = window[i];
        self.onward(k, 0, false)
    }

    // Mode 1: 13; then the beat is made, for which there is room.
    fn send_step(self, k: Work, window: &[u8], streams: &mut Streams) -> Core
        requires in_move { InMove self k (length window.now) }
        requires room { in_window self.window (source_of k) 1 ≡ true → streams.old.made < length streams.old.out.now / 2 }
        ensures { Applies (λ (w : World). send_step w k) self window.now streams.old result window.now streams.new }
    {
        let a = k.read_address();
        let Some(place) = self.window.locate(a, 1) else {
            return self.missed(Fault::SOURCE_OUTSIDE, a);
        };
        let at = place.index();
        streams.make(k.beat(window[at]));
        self.onward(k, 0, false)
    }

    // Mode 2: 14, and then the next beat is not taken.
    fn receive_step(self, k: Work, window: &mut [u8], streams: &mut Streams) -> Core
        requires in_move { InMove self k (length window.old) }
        requires more { streams.old.taken < length streams.old.beats.now / 2 }
        ensures { Applies (λ (w : World). receive_from w k w.input) self window.old streams.old result window.new streams.new }
    {
        let a = k.write_address();
        let Some(place) = self.window.locate(a, 1) else {
            return self.missed(Fault::DESTINATION_OUTSIDE, a);
        };
        let at = place.index();
        let beat = streams.take();
        window[at] = beat.byte;
        self.onward(k, beat.errors, beat.eop)
    }

    // Move, by the mode: by a match, and no closure for each, since the three take different parts of what is lent.
    pub(crate) fn move_step(self, k: Work, window: &mut [u8], streams: &mut Streams) -> Core
        requires in_move { InMove self k (length window.old) }
        requires goes { GoesOn (λ (w : World). move_step self.mode w k) self window.old streams.old }
        ensures { Applies (λ (w : World). move_step self.mode w k) self window.old streams.old result window.new streams.new }
    {
        let mode = self.mode;
        match mode {
            Mode::MemoryToMemory => self.copy_step(k, window),
            Mode::MemoryToStream => self.send_step(k, window, streams),
            Mode::StreamToMemory => self.receive_step(k, window, streams),
        }
    }

    // Move: no room, no step, but 13 comes before that; no beat, no step.
    pub(crate) fn move_wait(self, k: Work, more: bool, room: bool, keeps: bool) -> Option<Reason>
        ensures { Waits (λ (w : World). move_step self.mode w k) self more room keeps result }
    {
        let mode = self.mode;
        match mode {
            Mode::MemoryToMemory => None,
            Mode::MemoryToStream => {
                if room {
                    return None;
                }
                let found = self.window.locate(k.read_address(), 1);
                match found {
                    None => None,
                    Some(_) => Some(Reason::OutputFull),
                }
            }
            Mode::StreamToMemory => if more { None } else { Some(Reason::NeedsInput) },
        }
    }
}
