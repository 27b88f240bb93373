// The vectored interrupt controller. All there is of one are its 88 bytes, which the caller keeps: each call works in them, looks at
// their size and their rules first, and where it is refused has changed nothing.
// Numbers are read where they stand: a struct of all 39, unpacked and packed at each call, is no plainer, since a call writes only one.
#![tactic(auto)]

ghost use Rattle.std.specs.Prelude.{cond, ◌≡◌, ◌+◌, ◌*◌, ◌%◌, ◌/◌, ◌^◌, ◌≤◌, ◌<◌, length, [], ◌∷◌, MatchOption, SomeIff};
ghost use Rattle.bus.specs.Refusal.{answer_number};
ghost use Rattle.words.specs.Orders.{row_bytes};
ghost use Rattle.std.specs.Int.Bits.{bit_or, bit_and};
ghost use Rattle.words.specs.declared.Order.TheVariants.{MostFirst};
ghost use Rattle.words.specs.Promise.{Gives, Leaves, Answers};
ghost use Rattle.words.specs.Slices.{number_at};
ghost use Rattle.vic.specs.Layout.{ports as ports_of, lines, software, enabled, place, config as config_in, with_bit, bit_made, config_of, set_of, mask_of};
ghost use Rattle.vic.specs.Rules.{ports_kept, config_kept, bits_kept, broken_config, lowest_broken};
ghost use Rattle.vic.specs.Choice.{level as level_in, chosen_level, chosen_port};
ghost use Rattle.vic.specs.Calls.{load_number, port_number, answer_widths, VicCreated, VicConfigured, VicEnabled, VicTriggered, VicDriven, VicChosen};

use bus::Refusal;
use words::{Order, get_u16, get_u32, put_u16, put_u32, put_words};

// The size of a controller, and that of the answer of `choose`.
const SIZE: usize = 88;

const ANSWER: usize = 12;

// Where its numbers of 32 bits stand. In the last three, bit p is port p's.
const PORTS: usize = 0;

const VECTOR: usize = 4;

const BASE: usize = 8;

const LINES: usize = 12;

const SOFTWARE: usize = 16;

const ENABLED: usize = 20;

// The count of ports stands in the highest byte of its number.
const ONE_PORT: u32 = 0x100_0000;

// The 32-bit number at a place.
fn word(vic: &[u8], at: usize) -> u32
    ensures { Gives (number_at MostFirst 4 vic.now at) result }
{
    get_u32(Order::MostFirst, vic, at)
}

// How many ports it has.
fn ports(vic: &[u8]) -> u32
    ensures { Gives (ports_of vic.now) result }
{
    word(vic, PORTS) / ONE_PORT
}

// The ports that are pending, bit p for port p.
fn waiting(vic: &[u8]) -> u32
    ensures { result ≡ bit_and (bit_or (lines vic.now) (software vic.now)) (enabled vic.now) }
{
    let lines = word(vic, LINES);
    let software = word(vic, SOFTWARE);
    let enabled = word(vic, ENABLED);
    (lines | software) & enabled
}

// Where the configuration of a port stands.
fn config_at(port: u32) -> usize
    ensures { result ≡ place port }
{
    24 + 2 * port as usize
}

// The configuration of a port.
fn config(vic: &[u8], port: u32) -> u16
    ensures { Gives (config_in vic.now port) result }
{
    get_u16(Order::MostFirst, vic, config_at(port))
}

// The level of a port.
fn level(vic: &[u8], port: u32) -> u32
    ensures { Gives (level_in vic.now port) result }
{
    u32::from(config(vic, port)) % 64
}

// A port and its level.
#[derive(Clone, Copy, Debug, PartialEq, Eq)]
struct Found {
    port: u32,
    level: u32,
}

// The port of the largest level above 0 that is pending; of equal levels the first. In the loop a level of 0 says that there is none: an
// `Option` that is carried round is put together and taken apart at each port.
fn best(vic: &[u8]) -> Option<Found>
    ensures { SomeIff result (0 < chosen_level vic.now) (record { port = chosen_port vic.now; level = chosen_level vic.now }) }
{
    let mut rest = waiting(vic);
    let mut best = Found { port: 0, level: 0 };
    for port in 0..ports(vic) {
        let level = level(vic, port);
        if rest % 2 == 1 && best.level < level {
            best = Found { port, level };
        }
        rest /= 2;
    }
    if 0 < best.level { Some(best) } else { None }
}

// A number with the bit of a port made so.
#[tactic(auto, using(crate::proofs::Marks::shifted, crate::proofs::Marks::weight_under), unfolding(crate::specs::Layout::with_bit))]
fn with_bit(p: u32, on: bool, n: u32) -> u32
    requires { p < 32 }
    ensures { result ≡ with_bit p on n }
{
    let bit = 1 << p;
    let set = n | bit;
    if on { set } else { set - bit }
}

// Whether a controller may have so many ports.
fn ports_kept(ports: u32) -> bool
    ensures { result ≡ ports_kept ports }
{
    (1..=32).contains(&ports)
}

// Whether a configuration keeps its rule.
fn config_kept(ports: u32, p: u32, c: u16) -> bool
    ensures { result ≡ config_kept ports p c }
{
    c < 0x2000 && (p < ports || c == 0)
}

// The first port whose configuration breaks its rule.
fn broken_port(vic: &[u8]) -> Option<u32>
    ensures { MatchOption result (broken_config vic.now ≡ 0) (λ port. (port < 32) × (broken_config vic.now ≡ 8 + port)) }
{
    let n = ports(vic);
    (0..32).find(|&port| !config_kept(n, port, config(vic, port)))
}

// Whether the bits of ports that it lacks are zero.
fn bits_kept(ports: u32, bits: u32) -> bool
    requires { ports ≤ 32 }
    ensures { result ≡ bits_kept ports bits }
{
    let beyond: u64 = 1 << ports;
    u64::from(bits) < beyond
}

// The lowest field that breaks a rule.
#[tactic(auto, using(crate::proofs::Ruling::broken_is))]
fn broken(vic: &[u8]) -> Option<u8>
    ensures { SomeIff result (0 < lowest_broken vic.now) (lowest_broken vic.now) }
{
    let first = word(vic, PORTS);
    let n = first / ONE_PORT;
    if !ports_kept(n) {
        return Some(1);
    }
    if first % ONE_PORT != 0 {
        return Some(2);
    }
    if !bits_kept(n, word(vic, LINES)) {
        return Some(5);
    }
    if !bits_kept(n, word(vic, SOFTWARE)) {
        return Some(6);
    }
    if !bits_kept(n, word(vic, ENABLED)) {
        return Some(7);
    }
    let port = broken_port(vic)?;
    Some(8 + port as u8)
}

// Refused where the 88 bytes are not those of a controller.
#[tactic(auto, unfolding(crate::specs::Calls::load_number))]
fn loaded(vic: &[u8]) -> Result<(), Refusal>
    ensures { Gives (load_number vic.now) (answer_number result) }
{
    if vic.len() != SIZE {
        return Err(Refusal::BadSize);
    }
    match broken(vic) {
        Some(field) => Err(Refusal::BadImage(field)),
        None => Ok(()),
    }
}

// Refused where a call on a port is.
#[tactic(auto, unfolding(crate::specs::Calls::port_number))]
fn ported(vic: &[u8], port: u32) -> Result<(), Refusal>
    ensures { Gives (port_number vic.now port) (answer_number result) }
{
    loaded(vic)?;
    if ports(vic) <= port {
        return Err(Refusal::NoPort);
    }
    Ok(())
}

// A new controller: so many ports, bytes per vector and base; the rest is zero.
#[tactic(auto, unfolding(crate::specs::Calls::create_number))]
pub fn create(vic: &mut [u8], ports: u32, vector: u32, base: u32) -> Result<(), Refusal>
    ensures { VicCreated vic.old ports vector base (answer_number result) vic.new }
{
    if vic.len() != SIZE {
        return Err(Refusal::BadSize);
    }
    if !ports_kept(ports) {
        return Err(Refusal::NoPort);
    }
    vic.fill(0);
    put_words(
        Order::MostFirst,
        vic,
        PORTS,
        &[ports * ONE_PORT, vector, base],
    );
    Ok(())
}

// A configuration: level and register set, 6 bits each, and the flag.
fn config_of(level: u32, set: u32, nmi: bool) -> u16
    ensures { result ≡ config_of level set nmi }
{
    (set % 64 * 128 + u32::from(nmi) * 64 + level % 64) as u16
}

// Configures a port: its level and register set, 6 bits each, and whether it is non-maskable.
// A flag is a number here and in the calls below, since their promises (VicConfigured, ..), which the C calls make too, are of numbers.
pub fn configure(vic: &mut [u8], port: u32, level: u32, set: u32, nmi: u32) -> Result<(), Refusal>
    ensures { VicConfigured vic.old port level set nmi (answer_number result) vic.new }
{
    ported(vic, port)?;
    let c = config_of(level, set, nmi != 0);
    put_u16(Order::MostFirst, vic, config_at(port), c);
    Ok(())
}

// Makes the bit of a port so, in the number at a place.
#[tactic(auto, using(crate::proofs::Refusing::port_below))]
fn mark(vic: &mut [u8], at: usize, port: u32, on: bool) -> Result<(), Refusal>
    ensures { Answers (port_number vic.old port) vic.old (bit_made vic.old at port on) (answer_number result) vic.new }
{
    ported(vic, port)?;
    let bits = with_bit(port, on, word(vic, at));
    put_u32(Order::MostFirst, vic, at, bits);
    Ok(())
}

// Drives the line of a port.
pub fn line(vic: &mut [u8], port: u32, up: u32) -> Result<(), Refusal>
    ensures { VicDriven vic.old port up (answer_number result) vic.new }
{
    mark(vic, LINES, port, up != 0)
}

// The software trigger of a port.
pub fn trigger(vic: &mut [u8], port: u32, on: u32) -> Result<(), Refusal>
    ensures { VicTriggered vic.old port on (answer_number result) vic.new }
{
    mark(vic, SOFTWARE, port, on != 0)
}

// Enables a port, or not.
pub fn enable(vic: &mut [u8], port: u32, on: u32) -> Result<(), Refusal>
    ensures { VicEnabled vic.old port on (answer_number result) vic.new }
{
    mark(vic, ENABLED, port, on != 0)
}

// The handler address of a port, where it has 32 bits.
fn address_of(port: u32, each: u32, base: u32) -> Option<u32>
    ensures { SomeIff result (port * each + base < 2 ^ 32) (port * each + base) }
{
    port.checked_mul(each)?.checked_add(base)
}

// What is told of a port, as the three words of the answer.
fn tell(found: Found, c: u16, address: u32, answer: &mut [u8])
    requires port_bound { found.port < 32 }
    requires level_bound { found.level < 64 }
    requires answer_len { length answer.old ≡ 12 }
    ensures { Leaves (row_bytes MostFirst answer_widths (1 ∷ found.port ∷ found.level ∷ set_of c ∷ mask_of c ∷ address ∷ [])) answer.new }
{
    let own = u32::from(c);
    let head = 0x1_0000 + found.port;
    let parts = found.level * 0x100_0000 + own / 128 % 64 * 0x1_0000 + own / 64 % 2;
    put_words(Order::MostFirst, answer, 0, &[head, parts, address]);
}

// The chosen port: which it is, its level, register set and flag, and its handler address; or that there is none.
#[tactic(auto, using(crate::proofs::Telling::chosen_below), unfolding(crate::specs::Calls::choose_number, crate::specs::Calls::answer_of))]
pub fn choose(vic: &[u8], answer: &mut [u8]) -> Result<(), Refusal>
    ensures { VicChosen vic.now answer.old (answer_number result) answer.new }
{
    if answer.len() != ANSWER {
        return Err(Refusal::BadSize);
    }
    loaded(vic)?;
    let Some(found) = best(vic) else {
        answer.fill(0);
        return Ok(());
    };
    let handler = address_of(found.port, word(vic, VECTOR), word(vic, BASE));
    let address = handler.ok_or(Refusal::AddressTooLarge)?;
    tell(found, config(vic, found.port), address, answer);
    Ok(())
}
