// The machine as the fields of its image, and back; load and save.
ghost use Rattle.std.specs.Prelude.{true, ◌≡◌, Ok};
ghost use Rattle.bus.specs.Window.{keeps_limits};
ghost use Rattle.regs.specs.Modes.{mode_of};
ghost use Rattle.machine.specs.Saved.{in_hand, fault_in, fields_of, kind_of, bytes_of, tail_with, tail_of, keeps as keeps_of, spoiled as spoiled_of, work_of, phase_of, slot_of, machine_of, WasLoaded, WasSaved};
ghost use Rattle.machine.specs.Helpers.Put.{MachineWasPut};

use crate::{Core, Fault, Machine, Phase, Slot, Work};
use bus::{Refusal, Window};
use descriptor::{DescControl, Look, Miss, Raw};
use image::{Fields, Tail};
use regs::{Control, Mode, Pointer, Status};
use words::has;

const NONE: Work = Work {
    at: 0,
    source: 0,
    destination: 0,
    length: 0,
    control: DescControl(0),
    errors: 0,
    moved: 0,
    eop: false,
};

const NO_FAULT: Fault = Fault {
    code: 0,
    address: 0,
};

// The descriptor in hand, or zeros.
fn in_hand(phase: Phase) -> Work
    ensures { result ≡ in_hand phase }
{
    match phase {
        Phase::Move(k) | Phase::WriteBack(k) => k,
        Phase::Rest | Phase::Fetch | Phase::Ended | Phase::Halted | Phase::Faulted(_) => NONE,
    }
}

// The fault, or zeros.
fn fault_in(phase: Phase) -> Fault
    ensures { result ≡ fault_in phase }
{
    if let Phase::Faulted(f) = phase {
        f
    } else {
        NO_FAULT
    }
}

// Functions, and no `From`: they are total on what the rules leave, and an image may hold a phase or a mode that is none.
fn work_of(f: Fields) -> Work
    ensures { result ≡ work_of f }
{
    Work {
        at: f.address,
        source: f.source,
        destination: f.destination,
        length: f.size,
        control: DescControl(f.dcontrol),
        errors: f.errors,
        moved: f.moved,
        eop: f.eop,
    }
}

fn phase_of(f: Fields) -> Phase
    ensures { result ≡ phase_of f }
{
    match f.phase {
        0 => Phase::Rest,
        1 => Phase::Fetch,
        2 => Phase::Move(work_of(f)),
        3 => Phase::WriteBack(work_of(f)),
        4 => Phase::Ended,
        5 => Phase::Halted,
        _ => Phase::Faulted(Fault {
            code: f.fault,
            address: f.faultat,
        }),
    }
}

// The mode of a number; the rules leave none above 2.
fn mode_of(n: u8) -> Mode
    ensures { result ≡ mode_of n }
{
    match n {
        0 => Mode::MemoryToMemory,
        1 => Mode::MemoryToStream,
        _ => Mode::StreamToMemory,
    }
}

// What was read ahead. The kinds are 0 to 3.
fn slot_of(t: Tail) -> Slot
    ensures { result ≡ slot_of t }
{
    match t.kind {
        0 => None,
        1 => Some(Ok(t.raw)),
        2 => Some(Err(Miss::Misaligned)),
        _ => Some(Err(Miss::Outside)),
    }
}

// The slot's kind, and its bytes, where it is held.
fn kind_of(look: Look) -> u8
    ensures { result ≡ kind_of look }
{
    match look {
        Ok(_) => 1,
        Err(Miss::Misaligned) => 2,
        Err(Miss::Outside) => 3,
    }
}

fn bytes_of(look: Look) -> Raw
    ensures { result ≡ bytes_of look }
{
    look.unwrap_or(Raw::ZERO)
}

// The fields that edition 2 adds.
fn tail_with(slot: Slot, pointer: u32, run: u32) -> Tail
    ensures { result ≡ tail_with slot pointer run }
{
    match slot {
        None => Tail {
            kind: 0,
            zero6: 0,
            at: 0,
            raw: Raw::ZERO,
            run,
        },
        Some(look) => Tail {
            kind: kind_of(look),
            zero6: 0,
            at: pointer,
            raw: bytes_of(look),
            run,
        },
    }
}

// The machine of fields whose window keeps the limits, so that it is never refused here.
fn machine_of(f: Fields, t: Tail) -> Result<Machine, Refusal>
    requires { keeps_limits f.base f.window ≡ true }
    ensures { result ≡ Ok (machine_of f t) }
{
    let window = Window::checked(f.base as u64, f.window as u64)?;
    let core = Core {
        mode: mode_of(f.mode),
        window,
        status: Status::from(f.status as u32),
        control: Control(f.control),
        pointer: Pointer(f.pointer),
        phase: phase_of(f),
        pending: f.pending,
        count: f.count,
    };
    Ok(Machine {
        core,
        slot: slot_of(t),
        run: t.run,
    })
}

impl Core {
    // The fields of its image.
    fn fields(self) -> Fields
        ensures { result ≡ fields_of self }
    {
        let mode = self.mode;
        let window = self.window;
        let phase = self.phase;
        let work = in_hand(phase);
        let fault = fault_in(phase);
        let status = self.status;
        let control = self.control.0;
        Fields {
            edition: 2,
            mode: mode.into(),
            phase: phase.into(),
            armed: has(control, Control::SW_RESET),
            pending: self.pending,
            fault: fault.code,
            status: u32::from(status) as u8,
            count: self.count,
            control,
            pointer: self.pointer.0,
            base: window.base(),
            window: window.size(),
            address: work.at,
            source: work.source,
            destination: work.destination,
            size: work.length,
            dcontrol: work.control.0,
            errors: work.errors,
            moved: work.moved,
            eop: work.eop,
            zero15: 0,
            faultat: fault.address,
        }
    }
}

impl Machine {
    // What edition 2 adds to its image.
    fn tail(self) -> Tail
        ensures { result ≡ tail_of self }
    {
        let slot = self.slot;
        tail_with(slot, self.core.pointer.0, self.run)
    }

    // Whether it keeps the image rules.
    pub(crate) fn keeps(self) -> bool
        ensures { result ≡ keeps_of self }
    {
        image::keeps(self.core.fields(), self.tail())
    }

    // 8 for one that does not, with the lowest field of its image that breaks a rule. No good path comes here.
    pub(crate) fn spoiled(self) -> Refusal
        ensures { result ≡ spoiled_of self }
    {
        image::refused(self.core.fields(), self.tail())
    }

    // The machine of 85 bytes that keep the rules.
    pub fn load(from: &[u8]) -> Result<Machine, Refusal>
        ensures { WasLoaded from.now result }
    {
        let f = image::read(from)?;
        machine_of(f, image::tail_in(from))
    }

    // Writes the 85 bytes of a machine that keeps the rules; where it is refused nothing is written.
    pub fn save(self, to: &mut [u8]) -> Result<(), Refusal>
        ensures { WasSaved self to.old result to.new }
    {
        image::write(self.core.fields(), self.tail(), to)
    }

    // Writes the 85 bytes of a machine that is known to keep the rules. It looks at the size and the widths alone: where the
    // slice is not of 85 bytes or a number does not fit its width it is refused, and nothing is written.
    #[tactic(auto, unfolding(crate::specs::Helpers::Put::put_of))]
    pub fn put(self, to: &mut [u8]) -> Result<(), Refusal>
        ensures { MachineWasPut self to.old result to.new }
    {
        image::put(self.core.fields(), self.tail(), to)
    }
}
