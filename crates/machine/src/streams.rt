// The streams that are lent, and how far they are gone through: so many beats of the one are taken, and so many of the other made.
ghost use Rattle.std.specs.Prelude.{◌≡◌, ◌*◌, ◌+◌, ◌/◌, ◌≤◌, ◌<◌, length, ltb};

use flow::Beat;
use words::{Order, get_u16, put_u16};

// No more beats are taken than there are, or made than there is room for.
#[derive(Drop)]
pub(crate) struct Streams<'a> {
    pub beats: &'a [u8],
    pub taken: usize,
    pub out: &'a mut [u8],
    pub made: usize,
    ghost within: { (taken ≤ length beats.now / 2) × (made ≤ length out.now / 2) },
}

impl<'a> Streams<'a> {
    ghost use Rattle.words.specs.declared.Order.TheVariants.{MostFirst};
    ghost use Rattle.words.specs.Orders.{bytes_of};
    ghost use Rattle.words.specs.Slices.{put_at, number_at};
    ghost use Rattle.flow.specs.Beats.{beat_of};
    ghost use Rattle.machine.specs.Helpers.Lending.{Kept};

    // Nothing is taken or made yet.
    pub(crate) fn new(beats: &'a [u8], out: &'a mut [u8]) -> Streams<'a>
        ensures lent { (result.beats.now ≡ beats.now) × (result.out.now ≡ out.old) }
        ensures same_reference { result.out.ghost_name ≡ out.entry.ghost_name }
        ensures counts { (result.taken ≡ 0) × (result.made ≡ 0) }
    {
        Streams {
            beats,
            taken: 0,
            out,
            made: 0,
        }
    }

    // Whether there is a beat to take.
    pub(crate) fn more(&self) -> bool
        ensures { result ≡ ltb self.now.taken (length self.now.beats.now / 2) }
    {
        self.taken < self.beats.len() / 2
    }

    // Whether there is room for one.
    pub(crate) fn room(&self) -> bool
        ensures { result ≡ ltb self.now.made (length self.now.out.now / 2) }
    {
        self.made < self.out.len() / 2
    }

    // Takes the next beat.
    pub(crate) fn take(&mut self) -> Beat
        requires { self.old.taken < length self.old.beats.now / 2 }
        ensures kept { Kept self.old self.new }
        ensures made { (self.new.made ≡ self.old.made) × (self.new.out.now ≡ self.old.out.now) }
        ensures taken { self.new.taken ≡ self.old.taken + 1 }
        ensures beat { result ≡ beat_of (number_at MostFirst 2 self.old.beats.now (2 * self.old.taken)) }
    {
        let beat = Beat::from(get_u16(Order::MostFirst, self.beats, 2 * self.taken));
        self.taken += 1;
        beat
    }

    // Makes a beat.
    pub(crate) fn make(&mut self, beat: u16)
        requires { self.old.made < length self.old.out.now / 2 }
        ensures kept { Kept self.old self.new }
        ensures made { self.new.made ≡ self.old.made + 1 }
        ensures taken { self.new.taken ≡ self.old.taken }
        ensures wrote { self.new.out.now ≡ put_at self.old.out.now (2 * self.old.made) (bytes_of MostFirst 2 beat) }
    {
        let out = &mut *self.out;
        put_u16(Order::MostFirst, out, 2 * self.made, beat);
        self.made += 1;
    }
}
