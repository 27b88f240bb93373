// The C calls as symbols of the archive. Each makes one call, of crate sgdma or of the crate of its device, and promises the same. A slice
// passes as pointer and length; each call returns 0, or the number of its refusal, and then has changed nothing. The eight of sgdma stand there
// and here, since a crate is a library or a static library, and a program in Rattle calls the former.
#![tactic(auto)]

pub mod chains;
pub mod controller;
pub mod editions;
pub mod interval;

ghost use Rattle.machine.specs.Run.{lent, back};
ghost use Rattle.sgdma.specs.Calls.{Created, RegisterWritten, RegisterRead, LineRead, RunMade, DescriptorBuilt, DescriptorRead, RecordFound};

use bus::number_of;

// Makes the image of a fresh core.
#[unsafe(no_mangle)]
pub extern "C" fn sgdma_create(image: &mut [u8], mode: u32, base: u64, length: u64) -> u32
    ensures { Created image.old mode base length result image.new }
{
    number_of(sgdma::sgdma_create(image, mode, base, length))
}

// Writes the register at `offset`.
#[unsafe(no_mangle)]
pub extern "C" fn sgdma_write_register(image: &mut [u8], offset: u32, value: u32) -> u32
    ensures { RegisterWritten image.old offset value result image.new }
{
    number_of(sgdma::sgdma_write_register(image, offset, value))
}

// Reads the register at `offset` into the four bytes of `value`.
#[unsafe(no_mangle)]
pub extern "C" fn sgdma_read_register(image: &[u8], offset: u32, value: &mut [u8]) -> u32
    ensures { RegisterRead image.now offset value.old result value.new }
{
    number_of(sgdma::sgdma_read_register(image, offset, value))
}

// Writes 1 into the four bytes of `value` where the interrupt line is up, else 0.
#[unsafe(no_mangle)]
pub extern "C" fn sgdma_line(image: &[u8], value: &mut [u8]) -> u32
    ensures { LineRead image.now value.old result value.new }
{
    number_of(sgdma::sgdma_line(image, value))
}

// Runs the core over the lent window, beats, output and ledger, of which `used` records are used, and writes its image and the 18
// bytes of `report`.
#[unsafe(no_mangle)]
pub extern "C" fn sgdma_run(
    image: &mut [u8],
    window: &mut [u8],
    beats: &[u8],
    out: &mut [u8],
    ledger: &mut [u8],
    used: u32,
    budget: u32,
    report: &mut [u8],
) -> u32
    ensures { RunMade image.old (lent window.old beats.now out.old ledger.old used)
        budget report.old
        result image.new (back window.new out.new ledger.new) report.new }
{
    number_of(sgdma::sgdma_run(image, window, beats, out, ledger, used, budget, report))
}

// Builds a descriptor in the lent window that stands at `base`.
#[unsafe(no_mangle)]
pub extern "C" fn sgdma_build_descriptor(
    window: &mut [u8],
    base: u64,
    address: u32,
    source: u32,
    destination: u32,
    next: u32,
    length: u16,
    control: u8,
) -> u32
    ensures { DescriptorBuilt window.old base address
        (record { source = source; destination = destination; next = next; length = length; control = record { 0 = control } })
        result window.new }
{
    number_of(sgdma::sgdma_build_descriptor(
        window,
        base,
        address,
        source,
        destination,
        next,
        length,
        control,
    ))
}

// Reads a descriptor of the lent window that stands at `base` into the 18 bytes of `answer`.
#[unsafe(no_mangle)]
pub extern "C" fn sgdma_read_descriptor(
    window: &[u8],
    base: u64,
    address: u32,
    answer: &mut [u8],
) -> u32
    ensures { DescriptorRead window.now base address answer.old result answer.new }
{
    number_of(sgdma::sgdma_read_descriptor(window, base, address, answer))
}

// Tells in the 4 bytes of `answer` whether the descriptor at `address` was written back in this run, and its latest byte count there.
#[unsafe(no_mangle)]
pub extern "C" fn sgdma_find_record(
    ledger: &[u8],
    used: u32,
    run: u32,
    address: u32,
    answer: &mut [u8],
) -> u32
    ensures { RecordFound ledger.now used run address answer.old result answer.new }
{
    number_of(sgdma::sgdma_find_record(ledger, used, run, address, answer))
}
