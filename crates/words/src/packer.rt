// A packer: fields are put one behind the other, each with its own width, so that a layout is read down its lines.
//
// It goes from line to line by value, and the widths are constants there: the compiler works out beforehand where each field stands.
ghost use Rattle.std.specs.Prelude.{ℕ};
ghost use Rattle.words.specs.Packed.{no_fields, field_put, packed_over};
ghost use Rattle.words.specs.Promise.{Gives, Leaves};

use crate::{Order, put_words};

// How many words there is room for.
const ROOM: usize = 24;

// Words of 32 bits, the first foremost, of which so many are whole; and the rest, so many bits that do not fill a word yet.
//
// The words are an array with a count beside it, and no `Vec`: nothing in this library is on a heap.
#[derive(Clone, Copy)]
pub struct Packer {
    words: [u32; ROOM],
    whole: usize,
    rest: u32,
    count: u32,
}

impl Packer {
    // Nothing is put yet.
    pub fn new() -> Self
        ensures { Gives no_fields result }
    {
        Packer {
            words: [0; ROOM],
            whole: 0,
            rest: 0,
            count: 0,
        }
    }

    // Puts a number or a flag as a field of so many bits. A field of more than 32, or for which there is no room, is not put; a number
    // with more bits than its field runs over into the one before.
    pub fn put<V: Into<u32>>(self, width: u32, value: V) -> Self
        ensures { (number : ℕ) × V.converts value number × Gives (field_put width number self) result }
    {
        let number: u32 = value.into();
        self.put_number(width, number)
    }

    // The same of the number that is to stand in the field, whatever type it came from.
    fn put_number(self, width: u32, number: u32) -> Self
        ensures { Gives (field_put width number self) result }
    {
        if 32 < width {
            return self;
        }
        let rest = (u64::from(self.rest) << width) + u64::from(number);
        let count = self.count % 32 + width;
        let whole = self.whole;
        let mut words = self.words;
        if count < 32 {
            return Packer {
                words,
                whole,
                rest: (rest % 0x1_0000_0000) as u32,
                count,
            };
        }
        if ROOM <= whole {
            return self;
        }
        let behind = count - 32;
        words[whole] = ((rest >> behind) % 0x1_0000_0000) as u32;
        Packer {
            words,
            whole: whole + 1,
            rest: (rest % (1 << behind)) as u32,
            count: behind,
        }
    }

    // Writes what was put into a slice of just as many bytes. Another is left as it was.
    pub fn write(self, to: &mut [u8])
        ensures { Leaves (packed_over self to.old) to.new }
    {
        let whole = self.whole;
        let left = (self.count % 32 / 8) as usize;
        if ROOM < whole || to.len() != 4 * whole + left {
            return;
        }
        put_words(Order::MostFirst, to, 0, &self.words[..whole]);
        to[4 * whole..].copy_from_slice(&self.rest.to_be_bytes()[4 - left..]);
    }
}
