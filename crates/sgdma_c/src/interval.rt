// The C calls of the interval timer: those of crate timer, over its 14 bytes.
ghost use Rattle.timer.specs.Calls.{TimerCreated, TimerRead, TimerWritten, TimerLine, TimerRan, TimerElapsed};

use bus::number_of;
use timer::calls;

// Makes a timer with this period.
#[unsafe(no_mangle)]
pub extern "C" fn sgdma_timer_create(timer: &mut [u8], period: u32) -> u32
    ensures { TimerCreated timer.old period result timer.new }
{
    number_of(calls::create(timer, period))
}

// Writes the register at `offset`.
#[unsafe(no_mangle)]
pub extern "C" fn sgdma_timer_write(timer: &mut [u8], offset: u32, value: u16) -> u32
    ensures { TimerWritten timer.old offset value result timer.new }
{
    number_of(calls::write(timer, offset, value))
}

// Reads the register at `offset` into the four bytes of `value`.
#[unsafe(no_mangle)]
pub extern "C" fn sgdma_timer_read(timer: &[u8], offset: u32, value: &mut [u8]) -> u32
    ensures { TimerRead timer.now offset value.old result value.new }
{
    number_of(calls::read(timer, offset, value))
}

// Writes 1 into the four bytes of `value` where the interrupt line is up, else 0.
#[unsafe(no_mangle)]
pub extern "C" fn sgdma_timer_line(timer: &[u8], value: &mut [u8]) -> u32
    ensures { TimerLine timer.now value.old result value.new }
{
    number_of(calls::line(timer, value))
}

// Makes so many ticks; `value` tells how many times the counter reached zero in them.
#[unsafe(no_mangle)]
pub extern "C" fn sgdma_timer_run(timer: &mut [u8], ticks: u32, value: &mut [u8]) -> u32
    ensures { TimerRan timer.old ticks value.old result timer.new value.new }
{
    number_of(calls::run(timer, ticks, value))
}

// Tells the ticks between two snapshots of this timer.
#[unsafe(no_mangle)]
pub extern "C" fn sgdma_timer_elapsed(
    timer: &[u8],
    earlier: u32,
    later: u32,
    value: &mut [u8],
) -> u32
    ensures { TimerElapsed timer.now earlier later value.old result value.new }
{
    number_of(calls::elapsed(timer, earlier, later, value))
}
