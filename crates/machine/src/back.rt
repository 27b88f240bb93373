// WriteBack: what a descriptor that is done leaves in memory, in the registers and in the ledger.
ghost use Rattle.std.specs.Prelude.{◌≡◌, true};
ghost use Rattle.bus.specs.Window.{in_window};
ghost use Rattle.machine.specs.State.{home as home_of};
ghost use Rattle.machine.specs.Step.{World, stored, written_control, written_back, after_back, completed as completed_of, entry_for};
ghost use Rattle.machine.specs.Helpers.Turns.{Backs};

use crate::{Core, Phase, Work};
use bus::BusAddress;
use descriptor::DescControl;
use ledger::Entry;
use regs::{Control, Count};
use words::has;

// RUN 0: Rest; errors with STOP_DMA_ER: Halted; else Fetch.
fn after_back(run: bool, halts: bool) -> Phase
    ensures { result ≡ after_back run halts }
{
    if run {
        if halts { Phase::Halted } else { Phase::Fetch }
    } else {
        Phase::Rest
    }
}

impl Work {
    // The record of the descriptor, dated with the run.
    pub(crate) fn entry(self, run: u32) -> Entry
        ensures { result ≡ entry_for run self }
    {
        Entry {
            run,
            at: self.at,
            actual: self.moved,
            status: self.errors,
            eop: self.eop,
        }
    }
}

impl Core {
    // The control byte as fetched, with OWNED cleared unless PARK.
    fn written_control(self, k: Work) -> u8
        ensures { result ≡ written_control self k }
    {
        if has(self.control.0, Control::PARK) {
            k.control.0
        } else {
            k.control.0 % DescControl::OWNED_BY_HW
        }
    }

    // The registers after a descriptor: RUN 0 or errors with STOP_DMA_ER end BUSY.
    fn completed(self, k: Work) -> Core
        ensures { result ≡ completed_of self k }
    {
        let c = self.control.0;
        let failed = k.errors != 0;
        let run = has(c, Control::RUN);
        let halts = failed & has(c, Control::STOP_DMA_ER);
        let n = Count::after(self.count, (c / Control::MAX_DESC_PROCESSED % 256) as u8);
        let control = self.control;
        let pending = self.pending | control.pends(k.eop, failed, n.full);
        let status = self.status;
        Core {
            status: status.after_back(k.eop, failed, run & !halts),
            phase: after_back(run, halts),
            pending,
            count: n.count,
            ..self
        }
    }

    // The last four descriptor bytes: actual, errors, control.
    fn put_back(self, k: Work, window: &mut [u8])
        requires { in_window (home_of self) k.at 32 ≡ true }
        ensures { (w : World) → window.new ≡ written_back (stored w self window.old) k }
    {
        let Some(place) = self.home().locate(BusAddress(k.at as u64), 32) else {
            return;
        };
        let control = self.written_control(k);
        descriptor::write_back(window, place, k.moved, k.errors, control);
    }

    // All but its record.
    pub(crate) fn write_back_step(self, k: Work, window: &mut [u8]) -> Core
        requires { in_window (home_of self) k.at 32 ≡ true }
        ensures { Backs self k window.old result window.new }
    {
        self.put_back(k, window);
        self.completed(k)
    }
}
