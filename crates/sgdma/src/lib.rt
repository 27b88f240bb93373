// The calls of the C host on a core, its memory and its ledger, which crate sgdma_c gives to C. Where one is refused it has changed nothing.
// The load answer is taken apart with `let .. else`, the form that the project has for it in each call of C, and `and` hands its refusal on;
// `?` takes the others.
#![tactic(auto)]

ghost use Rattle.std.specs.Prelude.{[], ◌≡◌, ◌<◌, length, true, Ok};
ghost use Rattle.words.specs.Promise.{Leaves};
ghost use Rattle.bus.specs.Refusal.{answer_number};
ghost use Rattle.machine.specs.Run.{lent, back};
ghost use Rattle.machine.specs.Saved.{keeps};
ghost use Rattle.sgdma.specs.Calls.{image_of, ran_over, report_over};
ghost use Rattle.sgdma.specs.Calls.{Created, RegisterWritten, RegisterRead, LineRead, RunMade, DescriptorBuilt, DescriptorRead, RecordFound};

use answers::{
    DESCRIPTOR, FINDING, REPORT, VALUE, put_descriptor, put_finding, put_report, put_value,
};
use bus::{BusAddress, Refusal, Window};
use descriptor::{DescControl, Job};
use machine::{Loan, Machine, Ran};
use regs::Mode;

// The size of an image.
const IMAGE: usize = 85;

// Writes the image of a machine that keeps the rules, which is never refused.
fn put_image(m: Machine, image: &mut [u8])
    requires m_value { keeps m ≡ true }
    requires image_len { length image.old ≡ 85 }
    ensures { Leaves (image_of m) image.new }
{
    let _ = m.put(image);
}

// Makes the image of a fresh core.
#[tactic(auto, unfolding(regs::specs::Modes::checked_mode, bus::specs::Window::checked_of))]
pub fn sgdma_create(image: &mut [u8], mode: u32, base: u64, length: u64) -> Result<(), Refusal>
    ensures { Created image.old mode base length (answer_number result) image.new }
{
    if image.len() != IMAGE {
        return Err(Refusal::BadSize);
    }
    let mode = Mode::try_from(mode)?;
    let window = Window::checked(base, length)?;
    put_image(Machine::fresh(mode, window), image);
    Ok(())
}

// Writes the register at `offset`.
#[tactic(auto, using(crate::proofs::Changed::by_loaded))]
pub fn sgdma_write_register(image: &mut [u8], offset: u32, value: u32) -> Result<(), Refusal>
    ensures { RegisterWritten image.old offset value (answer_number result) image.new }
{
    if image.len() != IMAGE {
        return Err(Refusal::BadSize);
    }
    let loaded = Machine::load(image);
    let Ok(m) = loaded else {
        return loaded.and(Ok(()));
    };
    let n = m.write(offset, value)?;
    put_image(n, image);
    Ok(())
}

// Reads the register at `offset` into the four bytes of `value`.
pub fn sgdma_read_register(image: &[u8], offset: u32, value: &mut [u8]) -> Result<(), Refusal>
    ensures { RegisterRead image.now offset value.old (answer_number result) value.new }
{
    if image.len() != IMAGE {
        return Err(Refusal::BadSize);
    }
    if value.len() != VALUE {
        return Err(Refusal::BadSize);
    }
    let loaded = Machine::load(image);
    let Ok(m) = loaded else {
        return loaded.and(Ok(()));
    };
    let v = m.register(offset)?;
    put_value(value, v);
    Ok(())
}

// Writes 1 into the four bytes of `value` where the interrupt line is up, else 0.
#[tactic(auto, using(crate::proofs::Answered::line_told), unfolding(crate::specs::Calls::line_call))]
pub fn sgdma_line(image: &[u8], value: &mut [u8]) -> Result<(), Refusal>
    ensures { LineRead image.now value.old (answer_number result) value.new }
{
    if image.len() != IMAGE {
        return Err(Refusal::BadSize);
    }
    if value.len() != VALUE {
        return Err(Refusal::BadSize);
    }
    let loaded = Machine::load(image);
    let Ok(m) = loaded else {
        return loaded.and(Ok(()));
    };
    put_value(value, m.up().into());
    Ok(())
}

// The image and the report after a run. One that took no step leaves the image that stands there.
fn put_run(r: Ran, image: &mut [u8], report: &mut [u8])
    requires machine_value { keeps r.machine ≡ true }
    requires taken_bound { (r.taken < 4294967296) × (r.made < 4294967296) }
    requires image_len { (length image.old ≡ 85) × (length report.old ≡ 18) }
    requires image_value { r.steps ≡ 0 → image.old ≡ image_of r.machine }
    ensures leaves { Leaves (ran_over (Ok r) []) image.new }
    ensures leaves_2 { Leaves (report_over (Ok r) []) report.new }
{
    let reason = r.reason;
    let machine = r.machine;
    let taken = r.taken as u32;
    let made = r.made as u32;
    put_report(report, reason.into(), r.steps, taken, made, r.used);
    if r.steps != 0 {
        put_image(machine, image);
    }
}

// Runs the core over the lent window, beats, output and ledger, of which `used` records are used, and writes its image and the 18
// bytes of `report`.
pub fn sgdma_run(
    image: &mut [u8],
    window: &mut [u8],
    beats: &[u8],
    out: &mut [u8],
    ledger: &mut [u8],
    used: u32,
    budget: u32,
    report: &mut [u8],
) -> Result<(), Refusal>
    ensures { RunMade image.old (lent window.old beats.now out.old ledger.old used)
        budget report.old
        (answer_number result) image.new (back window.new out.new ledger.new) report.new }
{
    if image.len() != IMAGE {
        return Err(Refusal::BadSize);
    }
    if report.len() != REPORT {
        return Err(Refusal::BadSize);
    }
    let loaded = Machine::load(image);
    let Ok(m) = loaded else {
        return loaded.and(Ok(()));
    };
    let mut loan = Loan {
        window,
        beats,
        out,
        ledger,
        used,
    };
    let r = m.resume(&mut loan, budget)?;
    put_run(r, image, report);
    Ok(())
}

// Builds a descriptor in the lent window that stands at `base`.
pub fn sgdma_build_descriptor(
    window: &mut [u8],
    base: u64,
    address: u32,
    source: u32,
    destination: u32,
    next: u32,
    length: u16,
    control: u8,
) -> Result<(), Refusal>
    ensures { DescriptorBuilt window.old base address
        (record { source = source; destination = destination; next = next; length = length; control = record { 0 = control } })
        (answer_number result) window.new }
{
    let job = Job {
        source,
        destination,
        next,
        length,
        control: DescControl(control),
    };
    descriptor::build(window, base, BusAddress(address as u64), job)
}

// Reads a descriptor of the lent window that stands at `base` into the 18 bytes of `answer`.
#[tactic(auto, using(crate::proofs::Answered::in_place), unfolding(crate::specs::Calls::descriptor_call))]
pub fn sgdma_read_descriptor(
    window: &[u8],
    base: u64,
    address: u32,
    answer: &mut [u8],
) -> Result<(), Refusal>
    ensures { DescriptorRead window.now base address answer.old (answer_number result) answer.new }
{
    if answer.len() != DESCRIPTOR {
        return Err(Refusal::BadSize);
    }
    let d = descriptor::read(window, base, BusAddress(address as u64))?;
    put_descriptor(answer, d);
    Ok(())
}

// Tells in the 4 bytes of `answer` whether the descriptor at `address` was written back in this run, and its latest byte count there.
#[tactic(auto, using(crate::proofs::Answered::found_told), unfolding(crate::specs::Calls::find_call))]
pub fn sgdma_find_record(
    ledger: &[u8],
    used: u32,
    run: u32,
    address: u32,
    answer: &mut [u8],
) -> Result<(), Refusal>
    ensures { RecordFound ledger.now used run address answer.old (answer_number result) answer.new }
{
    if answer.len() != FINDING {
        return Err(Refusal::BadSize);
    }
    let found = ledger::find(ledger, used, run, address)?;
    put_finding(answer, found.is_some(), found.unwrap_or(0));
    Ok(())
}
