// Numbers in lent bytes, the most significant byte first or the least; and the bits of a number.
//
// Every call is total: a number that would not stand wholly in the slice is read as 0 and not written. The end `at + n` is
// summed only where it stands in the slice, so that it cannot wrap.
#![tactic(auto)]

pub mod packer;

ghost use Rattle.std.specs.Prelude.{◌≡◌, ◌+◌, ◌≤◌, ◌<◌, length, MatchOption};
ghost use Rattle.words.specs.Bits.{has_bit, flag as flag_of};
ghost use Rattle.words.specs.Orders.{in_order, bytes_of, word_bytes};
ghost use Rattle.words.specs.Slices.{part, put_at, number_at};
ghost use Rattle.words.specs.Promise.{Gives, Leaves};

// Which byte of a number stands first.
#[derive(Clone, Copy)]
pub enum Order {
    MostFirst,
    LeastFirst,
}

// Whether the bit of this weight is set; none has the weight 0.
pub fn has(n: u32, weight: u32) -> bool
    ensures { Gives (has_bit weight n) result }
{
    weight != 0 && n / weight % 2 == 1
}

// A flag as its bit.
pub fn flag(b: bool) -> u8
    ensures { Gives (flag_of b) result }
{
    u8::from(b)
}

// Bytes that stand the most significant first, in the order asked for; and back.
fn arranged<const N: usize>(order: Order, mut bytes: [u8; N]) -> [u8; N]
    ensures { result ≡ in_order order bytes.entry }
{
    match order {
        Order::MostFirst => bytes,
        Order::LeastFirst => {
            bytes.reverse();
            bytes
        }
    }
}

// The bytes from a place on, if so many stand there.
fn bytes_at<const N: usize>(from: &[u8], at: usize) -> Option<&[u8; N]>
    ensures { MatchOption result (length from.now < at + N) (λ bytes. (at + N ≤ length from.now) × (bytes.now ≡ part from.now at N)) }
{
    from.get(at..)?.first_chunk()
}

// Writes bytes at a place, if so many stand there.
fn put_bytes<const N: usize>(to: &mut [u8], at: usize, bytes: [u8; N])
    ensures { Leaves (put_at to.old at bytes.entry) to.new }
{
    if N <= to.len() && at <= to.len() - N {
        to[at..at + N].copy_from_slice(&bytes);
    }
}

// The 16-bit number at a place.
//
// There are two calls to read and two to write, since a number's width is its type, as at `from_be_bytes` and `to_be_bytes` of std.
#[tactic(auto, using(crate::proofs::Slices::numbers_read))]
pub fn get_u16(order: Order, from: &[u8], at: usize) -> u16
    ensures { Gives (number_at order 2 from.now at) result }
{
    match bytes_at::<2>(from, at) {
        Some(bytes) => u16::from_be_bytes(arranged(order, *bytes)),
        None => 0,
    }
}

// The 32-bit number at a place.
#[tactic(auto, using(crate::proofs::Slices::numbers_read))]
pub fn get_u32(order: Order, from: &[u8], at: usize) -> u32
    ensures { Gives (number_at order 4 from.now at) result }
{
    match bytes_at::<4>(from, at) {
        Some(bytes) => u32::from_be_bytes(arranged(order, *bytes)),
        None => 0,
    }
}

// Writes a 16-bit number at a place.
pub fn put_u16(order: Order, to: &mut [u8], at: usize, v: u16)
    ensures { Leaves (put_at to.old at (bytes_of order 2 v)) to.new }
{
    put_bytes(to, at, arranged(order, u16::to_be_bytes(v)));
}

// Writes a 32-bit number at a place.
pub fn put_u32(order: Order, to: &mut [u8], at: usize, v: u32)
    ensures { Leaves (put_at to.old at (bytes_of order 4 v)) to.new }
{
    put_bytes(to, at, arranged(order, u32::to_be_bytes(v)));
}

// Writes 32-bit numbers one after the other from a place on.
pub fn put_words(order: Order, to: &mut [u8], at: usize, ws: &[u32])
    ensures { Leaves (put_at to.old at (word_bytes order ws.now)) to.new }
{
    if to.len() / 4 < ws.len() || to.len() - 4 * ws.len() < at {
        return;
    }
    for (i, w) in ws.iter().enumerate() {
        put_u32(order, to, at + 4 * i, *w);
    }
}
