// The registers: offsets 0 status, 4 control, 8 next_descriptor_pointer; and the interrupt line.
ghost use Rattle.std.specs.Prelude.{◌≡◌};
ghost use Rattle.words.specs.Promise.{Gives};
ghost use Rattle.regs.specs.Control.{line_up};
ghost use Rattle.regs.specs.Offsets.{register_at};
ghost use Rattle.machine.specs.State.{with_phase, with_busy, rested as rested_of, fresh_core, machine_with, fresh as fresh_of};
ghost use Rattle.machine.specs.Helpers.Worlds.{stands, reads_ahead};
ghost use Rattle.machine.specs.Registers.{core_written, written_to, wrote_to, RegisterWasRead, WasWritten, WasLine};

use crate::{Core, Machine, Phase, Slot};
use bus::{Refusal, Window};
use regs::{Control, Mode, Pointer, Status, is_register, read};
use words::has;

impl Phase {
    // Ended and Halted, which stand until RUN is written 0.
    fn stands(self) -> bool
        ensures { result ≡ stands self }
    {
        matches!(self, Phase::Ended | Phase::Halted)
    }

    // Whether it holds what was read ahead: Fetch, Move and WriteBack do.
    fn reads_ahead(self) -> bool
        ensures { result ≡ reads_ahead self }
    {
        matches!(self, Phase::Fetch | Phase::Move(_) | Phase::WriteBack(_))
    }
}

impl Core {
    // A fresh core: all registers 0, at rest.
    pub(crate) fn fresh(mode: Mode, window: Window) -> Core
        ensures { Gives (fresh_core mode window) result }
    {
        Core {
            mode,
            window,
            status: Status::default(),
            control: Control(0),
            pointer: Pointer(0),
            phase: Phase::Rest,
            pending: false,
            count: 0,
        }
    }

    // Another phase, busy or not. Every `..self` is a copy of each field, so those that only do this call it.
    pub(crate) fn enters(self, phase: Phase, busy: bool) -> Core
        ensures { result ≡ with_phase phase (with_busy busy self) }
    {
        let mut status = self.status;
        status.busy = busy;
        Core {
            status,
            phase,
            ..self
        }
    }

    // At rest, not busy.
    pub(crate) fn rested(self) -> Core
        ensures { result ≡ rested_of self }
    {
        self.enters(Phase::Rest, false)
    }
}

impl Core {
    // A register written. An offset that is none changes nothing. The fields are written in place: a core that is handed on is copied.
    fn written(self, offset: u32, value: u32) -> Core
        ensures { Gives (core_written self offset value) result }
    {
        let mut m = self;
        if offset == Status::OFFSET {
            let status = m.status;
            let cleared = status.cleared(value);
            m.status = cleared;
            return m;
        }
        if offset == Pointer::OFFSET {
            let pointer = Pointer(value);
            m.pointer = pointer;
            return m;
        }
        if offset != Control::OFFSET {
            return m;
        }
        let control = m.control;
        if control.resets(value) {
            let mode = m.mode;
            let window = m.window;
            return Core::fresh(mode, window);
        }
        let stored = Control(value % Control::NOT_STORED);
        let phase = m.phase;
        let ends = phase.stands() & !has(value, Control::RUN);
        m.count = control.count_from(value, m.count);
        m.pending = m.pending & !has(value, Control::CLEAR_INTERRUPT);
        m.control = stored;
        if ends {
            return m.rested();
        }
        m
    }
}

impl Machine {
    // With its slot emptied, where its phase holds none. In place, as the machine is written: a slot that is handed on is copied in pieces.
    fn settled(self) -> Machine
        ensures { result ≡ machine_with self.core self.slot self.run }
    {
        let phase = self.core.phase;
        let mut m = self;
        if !phase.reads_ahead() {
            m.slot = None;
        }
        m
    }

    // The machine of a core, of what it has read ahead, which its phase may empty, and of a run number.
    pub(crate) fn of(core: Core, slot: Slot, run: u32) -> Machine
        ensures { result ≡ machine_with core slot run }
    {
        Machine { core, slot, run }.settled()
    }

    // A fresh machine: all registers 0, at rest, nothing read ahead, no run begun.
    pub fn fresh(mode: Mode, window: Window) -> Machine
        ensures { Gives (fresh_of mode window) result }
    {
        Machine::of(Core::fresh(mode, window), None, 0)
    }

    // A register written: a pointer write empties the slot.
    fn written(self, offset: u32, value: u32) -> Machine
        ensures { result ≡ written_to self offset value }
    {
        let core = self.core;
        let mut m = self;
        m.core = core.written(offset, value);
        if offset == Pointer::OFFSET {
            m.slot = None;
        }
        if offset == Control::OFFSET {
            let control = core.control;
            m.run = control.run_from(value, m.run);
        }
        m.settled()
    }
}

// Registers and line of a machine that is known to keep the rules, as one that was loaded is.
impl Machine {
    // The register at the offset, or NoRegister. Reading changes nothing.
    pub fn register(self, offset: u32) -> Result<u32, Refusal>
        ensures { Gives (register_at self.core.status self.core.control self.core.pointer offset) result }
    {
        let core = self.core;
        let status = core.status;
        let control = core.control;
        let pointer = core.pointer;
        read(status, control, pointer, offset)
    }

    // Whether the interrupt line is up.
    pub fn up(self) -> bool
        ensures { Gives (line_up self.core.control self.core.pending) result }
    {
        let core = self.core;
        let control = core.control;
        control.raises(core.pending)
    }

    // The machine with the register at the offset written, or NoRegister.
    pub fn write(self, offset: u32, value: u32) -> Result<Machine, Refusal>
        ensures { Gives (wrote_to self offset value) result }
    {
        if is_register(offset) {
            Ok(self.written(offset, value))
        } else {
            Err(Refusal::NoRegister)
        }
    }
}

// Registers and line of any machine: 8 for one that breaks a rule, before 1.
impl Machine {
    pub fn read_register(self, offset: u32) -> Result<u32, Refusal>
        ensures { RegisterWasRead self offset result }
    {
        if !self.keeps() {
            return Err(self.spoiled());
        }
        self.register(offset)
    }

    pub fn write_register(self, offset: u32, value: u32) -> Result<Machine, Refusal>
        ensures { WasWritten self offset value result }
    {
        if !self.keeps() {
            return Err(self.spoiled());
        }
        self.write(offset, value)
    }

    // Whether the interrupt line is up.
    pub fn line(self) -> Result<bool, Refusal>
        ensures { WasLine self result }
    {
        if !self.keeps() {
            return Err(self.spoiled());
        }
        Ok(self.up())
    }
}
