// The C calls of the interrupt controller: those of crate vic, over its 88 bytes.
ghost use Rattle.vic.specs.Calls.{VicCreated, VicConfigured, VicEnabled, VicTriggered, VicDriven, VicChosen};

use bus::number_of;

// Makes a controller of so many ports.
#[unsafe(no_mangle)]
pub extern "C" fn sgdma_vic_create(vic: &mut [u8], ports: u32, vector_bytes: u32, base: u32) -> u32
    ensures { VicCreated vic.old ports vector_bytes base result vic.new }
{
    number_of(vic::create(vic, ports, vector_bytes, base))
}

// Configures a port.
#[unsafe(no_mangle)]
pub extern "C" fn sgdma_vic_configure(
    vic: &mut [u8],
    port: u32,
    level: u32,
    set: u32,
    nmi: u32,
) -> u32
    ensures { VicConfigured vic.old port level set nmi result vic.new }
{
    number_of(vic::configure(vic, port, level, set, nmi))
}

// Enables a port, or not.
#[unsafe(no_mangle)]
pub extern "C" fn sgdma_vic_enable(vic: &mut [u8], port: u32, on: u32) -> u32
    ensures { VicEnabled vic.old port on result vic.new }
{
    number_of(vic::enable(vic, port, on))
}

// Sets the software trigger of a port, or clears it.
#[unsafe(no_mangle)]
pub extern "C" fn sgdma_vic_trigger(vic: &mut [u8], port: u32, on: u32) -> u32
    ensures { VicTriggered vic.old port on result vic.new }
{
    number_of(vic::trigger(vic, port, on))
}

// Drives the line of a port up, or down.
#[unsafe(no_mangle)]
pub extern "C" fn sgdma_vic_line(vic: &mut [u8], port: u32, up: u32) -> u32
    ensures { VicDriven vic.old port up result vic.new }
{
    number_of(vic::line(vic, port, up))
}

// Tells the chosen port in the 12 bytes of `answer`, or that there is none.
#[unsafe(no_mangle)]
pub extern "C" fn sgdma_vic_choose(vic: &[u8], answer: &mut [u8]) -> u32
    ensures { VicChosen vic.now answer.old result answer.new }
{
    number_of(vic::choose(vic, answer))
}
