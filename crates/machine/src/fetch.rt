// Fetch: the descriptor at the pointer is begun, and the next one read ahead; or the chain ends.
ghost use Rattle.std.specs.Prelude.{◌≡◌, Result, Option, None};
ghost use Rattle.machine.specs.declared.Phase.TheVariants.{Move};
ghost use Rattle.machine.specs.State.{with_phase, with_pointer, Slot};
ghost use Rattle.descriptor.specs.declared.Raw.{Raw};
ghost use Rattle.descriptor.specs.declared.Miss.{Miss};
ghost use Rattle.machine.specs.Step.{World, stored, holding, ended as ended_of, wants_length, begun as begun_of, fetched as fetched_of, seen as seen_of, fetch_step};
ghost use Rattle.machine.specs.Helpers.Turns.{Looks};

use crate::{Core, Fault, Phase, Slot, Work};
use bus::BusAddress;
use descriptor::{DescControl, Descriptor, Look, Miss, look_at};
use regs::{Control, Mode, Pointer};
use words::has;

// The core after a step of Rest or Fetch, and what it then has read ahead.
#[derive(Clone, Copy)]
pub(crate) struct Fetched {
    pub core: Core,
    pub slot: Slot,
}

// Modes 0 and 1 take no length of 0.
fn wants_length(mode: Mode) -> bool
    ensures { result ≡ wants_length mode }
{
    match mode {
        Mode::MemoryToMemory => true,
        Mode::MemoryToStream => true,
        Mode::StreamToMemory => false,
    }
}

impl Core {
    // OWNED 0: set CHAIN_COMPLETED, pend if IE_CHAIN, go to Ended; BUSY stays.
    fn ended(self) -> Core
        ensures { result ≡ ended_of self }
    {
        let pending = self.pending | has(self.control.0, Control::IE_CHAIN);
        let status = self.status;
        Core {
            status: status.ended(),
            phase: Phase::Ended,
            pending,
            ..self
        }
    }

    // Keep the fields, set the pointer to next_desc_ptr, go to Move.
    fn begun(self, d: Descriptor) -> Core
        ensures { result ≡ with_phase (Move (begun_of self.pointer.0 d)) (with_pointer d.next self) }
    {
        let control = d.control;
        let work = Work {
            at: self.pointer.0,
            source: d.source,
            destination: d.destination,
            length: d.length,
            control,
            errors: 0,
            moved: 0,
            eop: false,
        };
        Core {
            phase: Phase::Move(work),
            pointer: Pointer(d.next),
            ..self
        }
    }

    // Nothing is read ahead.
    pub(crate) fn alone(self) -> Fetched
        ensures { result ≡ record { core = self; slot = None } }
    {
        Fetched {
            core: self,
            slot: None,
        }
    }

    // OWNED 0 ends the chain; length 0 in mode 0 or 1 is fault 12; otherwise it is begun, and the next one is read ahead.
    fn fetched(self, d: Descriptor, window: &[u8]) -> Fetched
        ensures { (slot : Slot) → Looks (λ (w : World). fetched_of w d) self slot window.now result }
    {
        let control = d.control;
        let mode = self.mode;
        if !control.has(DescControl::OWNED_BY_HW) {
            return self.ended().alone();
        }
        let empty = wants_length(mode) & (d.length == 0);
        if empty {
            return self.faulted(Fault::NO_LENGTH, self.pointer.0).alone();
        }
        let next = look_at(self.home(), window, BusAddress(d.next as u64));
        Fetched {
            core: self.begun(d),
            slot: Some(next),
        }
    }

    // The look that a Fetch goes by: the slot's, or one at the pointer where it is empty.
    fn seen(self, window: &[u8], slot: Slot) -> Look
        ensures { (w : World) → result ≡ seen_of (holding (stored w self window.now) slot) }
    {
        match slot {
            None => look_at(self.home(), window, BusAddress(self.pointer.0 as u64)),
            Some(look) => look,
        }
    }

    // RUN 0: Rest. Otherwise what is seen: misaligned, fault 10; not in the window, fault 11; a descriptor.
    pub(crate) fn fetch_step(self, window: &[u8], slot: Slot) -> Fetched
        ensures { Looks fetch_step self slot window.now result }
    {
        if !has(self.control.0, Control::RUN) {
            return self.rested().alone();
        }
        let pointer = self.pointer.0;
        let look = self.seen(window, slot);
        match look {
            Ok(raw) => self.fetched(raw.named(), window),
            Err(miss) => match miss {
                Miss::Misaligned => self.faulted(Fault::MISALIGNED, pointer).alone(),
                Miss::Outside => self.faulted(Fault::DESCRIPTOR_OUTSIDE, pointer).alone(),
            },
        }
    }
}
