// The calls on a timer's 14 bytes, which the caller keeps. Each looks at the sizes and at the rules first, and where it is refused has
// changed nothing. The load answer is taken apart with `let .. else`, the form that the project has for it in each call of C, and `and`
// hands its refusal on.
ghost use Rattle.bus.specs.Refusal.{answer_number};
ghost use Rattle.std.specs.Prelude.{◌≡◌, ◌&&◌, length};
ghost use Rattle.words.specs.Promise.{Gives, Leaves};
ghost use Rattle.timer.specs.Calls.{is_value, value_bytes, TimerCreated, TimerRead, TimerWritten, TimerLine, TimerRan, TimerElapsed};
ghost use Rattle.timer.specs.Saved.{sized};
ghost use Rattle.timer.specs.Helpers.Parts.{opened_of};

use crate::Timer;
use crate::saved::SIZE;
use bus::Refusal;
use words::{Order, flag, put_u32};

// The size of a value.
const VALUE: usize = 4;

// Writes the 4 bytes of a value. Crate answers has the like for the core's calls: it stands on descriptors, of which a timer knows nothing.
fn put_value(value: &mut [u8], v: u32)
    requires { length value.old ≡ 4 }
    ensures { Leaves (value_bytes v) value.new }
{
    put_u32(Order::MostFirst, value, 0, v);
}

// The timer of a call that tells a value: it wants 4 bytes for it.
#[tactic(auto, unfolding(crate::specs::Helpers::Parts::opened_of, crate::specs::Saved::load_of))]
fn opened(timer: &[u8], value: &[u8]) -> Result<Timer, Refusal>
    ensures { Gives (opened_of (sized timer.now && is_value value.now) timer.now) result }
{
    if value.len() != VALUE {
        return Err(Refusal::BadSize);
    }
    Timer::load(timer)
}

// Makes a timer with this period.
#[tactic(auto, unfolding(crate::specs::Calls::create_number))]
pub fn create(timer: &mut [u8], period: u32) -> Result<(), Refusal>
    ensures { TimerCreated timer.old period (answer_number result) timer.new }
{
    if timer.len() != SIZE {
        return Err(Refusal::BadSize);
    }
    Timer::create(period).pack(timer);
    Ok(())
}

// Reads the register at `offset`.
pub fn read(timer: &[u8], offset: u32, value: &mut [u8]) -> Result<(), Refusal>
    ensures { TimerRead timer.now offset value.old (answer_number result) value.new }
{
    let loaded = opened(timer, value);
    let Ok(t) = loaded else {
        return loaded.and(Ok(()));
    };
    let v = t.read(offset)?;
    put_value(value, v as u32);
    Ok(())
}

// Writes the register at `offset`.
pub fn write(timer: &mut [u8], offset: u32, value: u16) -> Result<(), Refusal>
    ensures { TimerWritten timer.old offset value (answer_number result) timer.new }
{
    let loaded = Timer::load(timer);
    let Ok(t) = loaded else {
        return loaded.and(Ok(()));
    };
    let u = t.write(offset, value)?;
    u.pack(timer);
    Ok(())
}

// Tells 1 where the interrupt line is up, else 0.
pub fn line(timer: &[u8], value: &mut [u8]) -> Result<(), Refusal>
    ensures { TimerLine timer.now value.old (answer_number result) value.new }
{
    let loaded = opened(timer, value);
    let Ok(t) = loaded else {
        return loaded.and(Ok(()));
    };
    put_value(value, flag(t.line()) as u32);
    Ok(())
}

// Makes so many ticks, and tells how many times the counter reached zero in them.
pub fn run(timer: &mut [u8], ticks: u32, value: &mut [u8]) -> Result<(), Refusal>
    ensures { TimerRan timer.old ticks value.old (answer_number result) timer.new value.new }
{
    let loaded = opened(timer, value);
    let Ok(t) = loaded else {
        return loaded.and(Ok(()));
    };
    let ran = t.ticks(ticks);
    ran.timer.pack(timer);
    put_value(value, ran.zeros);
    Ok(())
}

// Tells the ticks between two snapshots of this timer.
pub fn elapsed(timer: &[u8], earlier: u32, later: u32, value: &mut [u8]) -> Result<(), Refusal>
    ensures { TimerElapsed timer.now earlier later value.old (answer_number result) value.new }
{
    let loaded = opened(timer, value);
    let Ok(t) = loaded else {
        return loaded.and(Ok(()));
    };
    let n = t.elapsed(earlier, later)?;
    put_value(value, n);
    Ok(())
}
