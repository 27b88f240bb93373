// One step: whether it can be taken; a fault; and what a step needs of the machine and of what is lent.
ghost use Rattle.std.specs.Prelude.{◌≡◌, ◌%◌, ◌^◌};
ghost use Rattle.bus.specs.Window.{in_window};
ghost use Rattle.machine.specs.State.{home as home_of};
ghost use Rattle.machine.specs.Step.{step as step_of};
ghost use Rattle.machine.specs.Run.{lent_in, served_if};
ghost use Rattle.machine.specs.Helpers.Worlds.{in_fault, served_as};
ghost use Rattle.machine.specs.Helpers.Waiting.{Waits, Begins};
ghost use Rattle.machine.specs.Helpers.Turns.{Begun};
ghost use Rattle.machine.specs.Helpers.Resume.{seated_as, core_ready, ready_of};

use crate::fetch::Fetched;
use crate::moves::asked;
use crate::{Core, Fault, Loan, Machine, Phase, Reason, Slot, Work};
use bus::{BusAddress, Refusal, Window};
use descriptor::Look;
use regs::Control;
use words::has;

// Where a step leads.
impl Core {
    // A fault sets BUSY 0 and keeps code and address.
    pub(crate) fn faulted(self, code: u8, address: u32) -> Core
        ensures { result ≡ in_fault self code address }
    {
        self.enters(Phase::Faulted(Fault { code, address }), false)
    }

    // Outside the window; a fault keeps the address modulo 2^32.
    pub(crate) fn missed(self, code: u8, address: BusAddress) -> Core
        ensures { result ≡ in_fault self code (address.0 % 2 ^ 32) }
    {
        self.faulted(code, (address.0 % 0x1_0000_0000) as u32)
    }
}

// What a step needs of the machine.
impl Core {
    // The window that descriptors live in.
    pub(crate) fn home(self) -> Window
        ensures { result ≡ home_of self }
    {
        self.window
    }

    // Whether a descriptor at this address is in the window.
    fn holds(self, address: u32) -> bool
        ensures { result ≡ in_window (home_of self) address 32 }
    {
        self.home().locate(BusAddress(address as u64), 32).is_some()
    }

    // In Move a byte is left to move and no EOP was seen.
    fn ready(self) -> bool
        ensures { result ≡ core_ready self }
    {
        let phase = self.phase;
        match phase {
            Phase::Move(k) => {
                let mode = self.mode;
                (k.moved < asked(mode, k.length)) & !k.eop & self.holds(k.at)
            }
            Phase::WriteBack(k) => self.holds(k.at),
            Phase::Rest | Phase::Fetch | Phase::Ended | Phase::Halted | Phase::Faulted(_) => true,
        }
    }
}

impl Core {
    // Whether what was read ahead lies in the window, where it is a descriptor.
    fn seats(self, look: Look) -> bool
        ensures { result ≡ seated_as self look }
    {
        match look {
            Ok(_) => self.holds(self.pointer.0),
            Err(_) => true,
        }
    }
}

impl Machine {
    // Whether it has what a step needs.
    pub(crate) fn ready(self) -> bool
        ensures { result ≡ ready_of self }
    {
        let core = self.core;
        let slot = self.slot;
        match slot {
            None => core.ready(),
            Some(look) => core.seats(look) & core.ready(),
        }
    }
}

// By the phase.
impl Core {
    // What a step waits for, where there is a beat to take, or not, and room for one, or not, and for a record, or not; none, where it can
    // be taken.
    pub(crate) fn wait(self, more: bool, room: bool, keeps: bool) -> Option<Reason>
        ensures { Waits step_of self more room keeps result }
    {
        let phase = self.phase;
        match phase {
            Phase::Rest => if has(self.control.0, Control::RUN) {
                None
            } else {
                Some(Reason::Rest)
            },
            Phase::Fetch => None,
            Phase::Move(k) => self.move_wait(k, more, room, keeps),
            Phase::WriteBack(_) => if keeps {
                None
            } else {
                Some(Reason::LedgerFull)
            },
            Phase::Ended => Some(Reason::Ended),
            Phase::Halted => Some(Reason::Halted),
            Phase::Faulted(_) => Some(Reason::Faulted),
        }
    }

    // The step out of Rest or Fetch, where it can be taken. They alone see the slot. It returns in one place: from a second one the parts
    // that an empty slot leaves open would be those of the loop's turn before, and be carried round.
    pub(crate) fn begin_step(self, window: &[u8], slot: Slot) -> Fetched
        requires { Begins self }
        ensures { Begun self slot window.now result }
    {
        let phase = self.phase;
        if let Phase::Fetch = phase {
            self.fetch_step(window, slot)
        } else {
            self.enters(Phase::Fetch, true).alone()
        }
    }
}

// Of any machine, and of whatever is lent.
impl Machine {
    // 8 where the machine is not good, with the field; 9 where beats, in or out, have an odd number of bytes; 19 where the ledger is not whole
    // records, or fewer than are said to be used; 4 where the window's length is not the machine's.
    pub(crate) fn served(self, good: bool, loan: &Loan) -> Result<(), Refusal>
        ensures { served_as result ≡ served_if good self (lent_in loan.now) }
    {
        if !good {
            return Err(self.spoiled());
        }
        let even = (loan.beats.len() % 2 == 0) & (loan.out.len() % 2 == 0);
        if !even {
            return Err(Refusal::OddStream);
        }
        if !ledger::serves(loan.ledger, loan.used) {
            return Err(Refusal::BadLedger);
        }
        if loan.window.len() != self.core.window.size() as usize {
            return Err(Refusal::OtherWindow);
        }
        Ok(())
    }
}
