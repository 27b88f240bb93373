// A timer in its 14 bytes.
ghost use Rattle.std.specs.Prelude.{◌≡◌, ◌∷◌, length};
ghost use Rattle.words.specs.Numbers.{split};
ghost use Rattle.words.specs.Promise.{Leaves};
ghost use Rattle.timer.specs.Saved.{timer_of, bytes_of_timer, TimerWasLoaded, TimerWasSaved};
ghost use Rattle.timer.specs.Helpers.Parts.{flag_widths};

use crate::Timer;
use bus::Refusal;
use words::Order;
use words::packer::Packer;

// How many they are.
pub(crate) const SIZE: usize = 14;

// The timer of three words and a half.
fn of_words(counter: u32, period: u32, snapshot: u32, flags: u16) -> Timer
    ensures { result ≡ timer_of (counter ∷ period ∷ snapshot ∷ split flag_widths flags) }
{
    Timer {
        counter,
        period,
        snapshot,
        cont: flags / 8 % 2 == 1,
        ito: flags / 4 % 2 == 1,
        run: flags / 2 % 2 == 1,
        to: flags % 2 == 1,
    }
}

impl Timer {
    // Writes the fields: the layout's table, line by line.
    pub(crate) fn pack(self, to: &mut [u8])
        requires { length to.old ≡ 14 }
        ensures { Leaves (bytes_of_timer self) to.new }
    {
        Packer::new()
            .put(32, self.counter)
            .put(32, self.period)
            .put(32, self.snapshot)
            .put(12, 0u16)
            .put(1, self.cont)
            .put(1, self.ito)
            .put(1, self.run)
            .put(1, self.to)
            .write(to);
    }

    // Saves a timer that keeps the rules. Where it is refused nothing is written.
    #[tactic(auto, unfolding(crate::specs::Saved::save_of, crate::specs::Saved::saved_over))]
    pub fn save(self, to: &mut [u8]) -> Result<(), Refusal>
        ensures { TimerWasSaved self to.old result to.new }
    {
        if to.len() != SIZE {
            return Err(Refusal::BadSize);
        }
        if self.period < self.counter {
            return Err(Refusal::BadImage(2));
        }
        self.pack(to);
        Ok(())
    }

    // The timer of 14 bytes that keep the rules.
    #[tactic(auto, unfolding(crate::specs::Saved::load_of))]
    pub fn load(from: &[u8]) -> Result<Timer, Refusal>
        ensures { TimerWasLoaded from.now result }
    {
        if from.len() != SIZE {
            return Err(Refusal::BadSize);
        }
        let counter = words::get_u32(Order::MostFirst, from, 0);
        let period = words::get_u32(Order::MostFirst, from, 4);
        let snapshot = words::get_u32(Order::MostFirst, from, 8);
        let flags = words::get_u16(Order::MostFirst, from, 12);
        if period < counter {
            return Err(Refusal::BadImage(2));
        }
        if 16 <= flags {
            return Err(Refusal::BadImage(4));
        }
        Ok(of_words(counter, period, snapshot, flags))
    }
}
