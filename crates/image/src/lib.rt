// The saved image of a machine: 85 bytes, its fields as numbers, and the rule that each field keeps. The images of an earlier edition, and
// the way from one to the other, stand in `moves`.
#![tactic(auto)]

pub mod moves;

ghost use Rattle.std.specs.Prelude.{true, false, ◌≡◌, ◌≤◌, length, take};
ghost use Rattle.words.specs.Numbers.{Fit};
ghost use Rattle.words.specs.Promise.{Gives, Leaves};
ghost use Rattle.words.specs.Slices.{number_at};
ghost use Rattle.words.specs.declared.Order.TheVariants.{MostFirst};
ghost use Rattle.bus.specs.declared.Refusal.TheVariants.{BadImage};
ghost use Rattle.bus.specs.Window.{keeps_limits, checked_of};
ghost use Rattle.descriptor.specs.Looking.{spot_of, stands, is_zero, raw_at};
ghost use Rattle.image.specs.Slot.{kind_in, held_kept, slot_at_kept, slot_bytes_kept};
ghost use Rattle.image.specs.Layout.{values, widths, image, fields, fields_in, tail};
ghost use Rattle.image.specs.Helpers.ByPhase.{kept_at, always, by_phase, core_kept, slot_kept_of};
ghost use Rattle.image.specs.Rules.{working, zero_outside, phase_kept, fault_kept, status_kept, control_kept, address_kept, size_kept, dcontrol_kept, errors_kept, asked, moved_kept, eop_kept, rules, first_false, lowest_broken, told, keeps_rules};
ghost use Rattle.image.specs.Helpers.WasPut.{fits, ImageWasPut};
ghost use Rattle.image.specs.Promise.{ImageWasRead, Wrote};

use crate::moves::broken_in;
use bus::{BusAddress, Refusal, Window};
use descriptor::{DescControl, Miss, Raw, raw_in, spot_of};
use regs::{Control, Status};
use words::packer::Packer;
use words::{Order, has, put_u32};

// The fields of the table's first part, in layout order. A field of one bit is a bool, so that it fits by its type.
#[derive(Clone, Copy, Debug, PartialEq, Eq)]
pub struct Fields {
    pub edition: u8,
    pub mode: u8,
    pub phase: u8,
    pub armed: bool,
    pub pending: bool,
    pub fault: u8,
    pub status: u8,
    pub count: u8,
    pub control: u32,
    pub pointer: u32,
    pub base: u32,
    pub window: u32,
    pub address: u32,
    pub source: u32,
    pub destination: u32,
    pub size: u16,
    pub dcontrol: u8,
    pub errors: u8,
    pub moved: u16,
    pub eop: bool,
    pub zero15: u16,
    pub faultat: u32,
}

// What edition 2 adds, in layout order: the slot, with its 32 bytes as they stand in memory, and the run number.
#[derive(Clone, Copy)]
pub struct Tail {
    pub kind: u8,
    pub zero6: u8,
    pub at: u32,
    pub raw: Raw,
    pub run: u32,
}

// The edition that is read and written.
const EDITION: u8 = 2;

// The bytes of an image, and where what edition 2 adds stands in it: the slot's kind, its address and its bytes, and the run number.
const SIZE: usize = 85;

const TAIL: usize = 44;

const SLOT_AT: usize = 45;

const SLOT_BYTES: usize = 49;

const RUN_NUMBER: usize = 81;

// The phases that the rules speak of. Phases, modes, kinds and fault codes are numbers here, and no enums: an image may hold a phase, a mode
// or a code that is none, and is refused by the rule of its field.
const FETCH: u8 = 1;

const MOVE: u8 = 2;

const WRITE_BACK: u8 = 3;

const ENDED: u8 = 4;

const HALTED: u8 = 5;

const FAULTED: u8 = 6;

// The kinds of a slot.
const EMPTY: u8 = 0;

const DESCRIPTOR: u8 = 1;

const FAULT_10: u8 = 2;

const FAULT_11: u8 = 3;

// A function for each rule of several parts. The definition that it ensures has the paper's sentence. `hand` is true in Move and
// WriteBack, where a descriptor is in hand; `reads` in the modes 0 and 1, which read memory; `writes` in 0 and 2. Where a phase
// needs much of a rule and the others little, the phase is branched on: from call to call it is nearly always the same.
fn phase_kept(mode: u8, phase: u8) -> bool
    ensures { result ≡ phase_kept mode phase }
{
    (phase <= FAULTED) & (!(phase == HALTED) | (mode == 2))
}

fn fault_kept(mode: u8, phase: u8, fault: u8) -> bool
    ensures { result ≡ fault_kept mode phase fault }
{
    if phase != FAULTED {
        return fault == 0;
    }
    let reads = (mode == 0) | (mode == 1);
    let writes = (mode == 0) | (mode == 2);
    ((10 <= fault) & (fault <= 14))
        & (!((fault == 12) | (fault == 13)) | reads)
        & (!(fault == 14) | writes)
}

fn status_kept(mode: u8, phase: u8, status: u8) -> bool
    ensures { result ≡ status_kept mode phase status }
{
    let bits = status as u32;
    let error = has(bits, Status::ERROR);
    let eop = has(bits, Status::EOP_ENCOUNTERED);
    let busy = has(bits, Status::BUSY);
    let active = (FETCH <= phase) & (phase <= ENDED);
    (status < 32) & (busy == active) & ((mode == 2) | !(error | eop))
}

fn control_kept(phase: u8, armed: bool, control: u32) -> bool
    ensures { result ≡ control_kept phase armed control }
{
    let reset = has(control, Control::SW_RESET);
    let run = has(control, Control::RUN);
    (control < Control::NOT_STORED)
        & (reset == armed)
        & (!((phase == ENDED) | (phase == HALTED)) | run)
}

// The window is handed on as the two fields that it is, here and below: one value would be made of them at each call, and save no test.
fn limits_kept(base: u32, window: u32) -> bool
    ensures { result ≡ keeps_limits base window }
{
    Window::checked(base as u64, window as u64).is_ok()
}

// Whether the one look at a descriptor's address finds its 32 bytes.
fn stands_at(place: Window, address: u32) -> bool
    ensures { result ≡ stands (spot_of place address) }
{
    spot_of(place, BusAddress(address as u64)).is_ok()
}

fn address_kept(hand: bool, base: u32, window: u32, address: u32) -> bool
    ensures { result ≡ address_kept hand base window address }
{
    if !hand {
        return address == 0;
    }
    let Ok(place) = Window::checked(base as u64, window as u64) else {
        return false;
    };
    stands_at(place, address)
}

fn zero_outside(hand: bool, x: u32) -> bool
    ensures { result ≡ zero_outside hand x }
{
    hand | (x == 0)
}

fn size_kept(mode: u8, hand: bool, size: u16) -> bool
    ensures { result ≡ size_kept mode hand size }
{
    let reads = (mode == 0) | (mode == 1);
    (hand | (size == 0)) & (!(hand & reads) | !(size == 0))
}

fn dcontrol_kept(hand: bool, dcontrol: u8) -> bool
    ensures { result ≡ dcontrol_kept hand dcontrol }
{
    let owned = DescControl(dcontrol).has(DescControl::OWNED_BY_HW);
    (hand | (dcontrol == 0)) & (!hand | owned)
}

fn errors_kept(mode: u8, hand: bool, errors: u8) -> bool
    ensures { result ≡ errors_kept mode hand errors }
{
    let reads = (mode == 0) | (mode == 1);
    (hand | (errors == 0)) & (!reads | (errors == 0)) & (errors < 128)
}

// How many bytes the descriptor asks for.
fn whole(mode: u8, size: u16) -> u16
    ensures { result ≡ asked mode size }
{
    let most = (mode == 2) & (size == 0);
    if most { 65_535 } else { size }
}

fn moved_kept(phase: u8, whole: u16, errors: u8, moved: u16) -> bool
    ensures { result ≡ moved_kept phase whole errors moved }
{
    if phase == MOVE {
        return (moved < whole) & (!(moved == 0) | (errors == 0));
    }
    if phase == WRITE_BACK {
        return (1 <= moved) & (moved <= whole);
    }
    moved == 0
}

fn eop_kept(mode: u8, phase: u8, whole: u16, moved: u16, eop: bool) -> bool
    ensures { result ≡ eop_kept mode phase whole moved eop }
{
    if phase != WRITE_BACK {
        return !eop;
    }
    let reads = (mode == 0) | (mode == 1);
    (!reads | !eop) & ((moved == whole) | eop)
}

// What rules 10 and 11 give at an address. Where the window keeps no limits it is no kind of a held slot.
fn kind_at(base: u32, window: u32, address: u32) -> u8
    ensures { result ≡ kind_in (checked_of base window) address }
{
    let Ok(place) = Window::checked(base as u64, window as u64) else {
        return EMPTY;
    };
    match spot_of(place, BusAddress(address as u64)) {
        Err(Miss::Misaligned) => FAULT_10,
        Err(Miss::Outside) => FAULT_11,
        Ok(_) => DESCRIPTOR,
    }
}

fn held_kept(phase: u8, kind: u8) -> bool
    ensures { result ≡ held_kept phase kind }
{
    (kind == EMPTY) | ((FETCH <= phase) & (phase <= WRITE_BACK))
}

fn slot_at_kept(base: u32, window: u32, pointer: u32, kind: u8, at: u32) -> bool
    ensures { result ≡ slot_at_kept base window pointer kind at }
{
    if kind == EMPTY {
        return at == 0;
    }
    (at == pointer) & (kind == kind_at(base, window, at))
}

fn slot_bytes_kept(kind: u8, raw: Raw) -> bool
    ensures { result ≡ slot_bytes_kept kind (is_zero raw) }
{
    (kind == DESCRIPTOR) | raw.is_zero()
}

// Whether each field keeps its rule, in layout order.
#[tactic(auto, unfolding(crate::specs::Rules::rules))]
fn kept(f: Fields, t: Tail) -> [bool; 27]
    ensures { result ≡ rules f t }
{
    let hand = (f.phase == MOVE) | (f.phase == WRITE_BACK);
    let whole = whole(f.mode, f.size);
    [
        f.edition == EDITION,
        f.mode <= 2,
        phase_kept(f.mode, f.phase),
        true, // armed
        true, // pending
        fault_kept(f.mode, f.phase, f.fault),
        status_kept(f.mode, f.phase, f.status),
        f.count <= 254,
        control_kept(f.phase, f.armed, f.control),
        true, // pointer
        true, // base
        limits_kept(f.base, f.window),
        address_kept(hand, f.base, f.window, f.address),
        zero_outside(hand, f.source),
        zero_outside(hand, f.destination),
        size_kept(f.mode, hand, f.size),
        dcontrol_kept(hand, f.dcontrol),
        errors_kept(f.mode, hand, f.errors),
        moved_kept(f.phase, whole, f.errors, f.moved),
        eop_kept(f.mode, f.phase, whole, f.moved, f.eop),
        f.zero15 == 0,
        (f.phase == FAULTED) | (f.faultat == 0),
        held_kept(f.phase, t.kind),
        t.zero6 == 0,
        slot_at_kept(f.base, f.window, f.pointer, t.kind, t.at),
        slot_bytes_kept(t.kind, t.raw),
        true, // run number
    ]
}

// The place of the first that is false, counted from 1.
fn first_false(kept: [bool; 27]) -> Option<u8>
    ensures { result ≡ told (first_false 1 kept) }
{
    let place = kept.iter().position(|keeps| !*keeps)?;
    Some(place as u8 + 1)
}

// The lowest field that breaks a rule, counted from 1.
#[tactic(auto, unfolding(crate::specs::Rules::lowest_broken))]
pub fn broken(f: Fields, t: Tail) -> Option<u8>
    ensures { Gives (told (lowest_broken f t)) result }
{
    first_false(kept(f, t))
}

// Why fields that break a rule are refused: BadImage, with the lowest that does. Fields that break none are not asked about, and give 0.
pub fn refused(f: Fields, t: Tail) -> Refusal
    ensures { Gives (BadImage (lowest_broken f t)) result }
{
    Refusal::BadImage(broken(f, t).unwrap_or(0))
}

// The same rules for `keeps` and `read`, which every call that is given an image or a machine asks: whether each is kept, and not which
// is not. Those of the first part look at the phase once; in a function to which a phase is given as a constant, what the other phases
// ask falls away.

// Those that do not look at the phase.
fn always_kept(f: Fields) -> bool
    ensures { result ≡ kept_at always f }
{
    (f.edition == EDITION)
        & (f.mode <= 2)
        & (f.count <= 254)
        & limits_kept(f.base, f.window)
        & (f.zero15 == 0)
}

// Those that do, where a descriptor is in hand: its source and destination are free.
fn hand_kept(phase: u8, f: Fields) -> bool
    requires phase_value { f.phase ≡ phase }
    requires phase_value_2 { working phase ≡ true }
    ensures { result ≡ kept_at by_phase f }
{
    let whole = whole(f.mode, f.size);
    address_kept(true, f.base, f.window, f.address)
        & size_kept(f.mode, true, f.size)
        & dcontrol_kept(true, f.dcontrol)
        & errors_kept(f.mode, true, f.errors)
        & moved_kept(phase, whole, f.errors, f.moved)
        & eop_kept(f.mode, phase, whole, f.moved, f.eop)
        & phase_kept(f.mode, phase)
        & fault_kept(f.mode, phase, f.fault)
        & status_kept(f.mode, phase, f.status)
        & control_kept(phase, f.armed, f.control)
        & ((phase == FAULTED) | (f.faultat == 0))
}

// Those that do, where none is in hand: all of it is zero.
fn idle_kept(f: Fields) -> bool
    requires { working f.phase ≡ false }
    ensures { result ≡ kept_at by_phase f }
{
    (f.source == 0)
        & (f.destination == 0)
        & (f.address == 0)
        & (f.size == 0)
        & (f.dcontrol == 0)
        & (f.errors == 0)
        & (f.moved == 0)
        & !f.eop
        & phase_kept(f.mode, f.phase)
        & fault_kept(f.mode, f.phase, f.fault)
        & status_kept(f.mode, f.phase, f.status)
        & control_kept(f.phase, f.armed, f.control)
        & ((f.phase == FAULTED) | (f.faultat == 0))
}

// Whether the fields of the first part keep theirs.
fn core_kept(f: Fields) -> bool
    ensures { result ≡ core_kept f }
{
    if !always_kept(f) {
        return false;
    }
    if f.phase == MOVE {
        return hand_kept(MOVE, f);
    }
    if f.phase == WRITE_BACK {
        return hand_kept(WRITE_BACK, f);
    }
    idle_kept(f)
}

// Whether all fields keep the rules.
pub fn keeps(f: Fields, t: Tail) -> bool
    ensures { Gives (keeps_rules f t) result }
{
    core_kept(f)
        & held_kept(f.phase, t.kind)
        & (t.zero6 == 0)
        & slot_at_kept(f.base, f.window, f.pointer, t.kind, t.at)
        & slot_bytes_kept(t.kind, t.raw)
}

// Writes the fields of an image: the layout's table, line by line. The slot's bytes stand as in memory.
fn pack(f: Fields, t: Tail, to: &mut [u8])
    requires to_len { length to.old ≡ 85 }
    requires fit { Fit widths (values f t) }
    ensures { Leaves (image f t) to.new }
{
    Packer::new()
        .put(4, f.edition)
        .put(2, f.mode)
        .put(3, f.phase)
        .put(1, f.armed)
        .put(1, f.pending)
        .put(5, f.fault)
        .put(8, f.status)
        .put(8, f.count)
        .put(32, f.control)
        .put(32, f.pointer)
        .put(32, f.base)
        .put(32, f.window)
        .put(32, f.address)
        .put(32, f.source)
        .put(32, f.destination)
        .put(16, f.size)
        .put(8, f.dcontrol)
        .put(8, f.errors)
        .put(16, f.moved)
        .put(1, f.eop)
        .put(15, f.zero15)
        .put(32, f.faultat)
        .put(2, t.kind)
        .put(6, t.zero6)
        .put(32, t.at)
        .write(&mut to[..SLOT_BYTES]);
    t.raw.put(to, SLOT_BYTES);
    put_u32(Order::MostFirst, to, RUN_NUMBER, t.run);
}

fn word(from: &[u8], at: usize) -> u32
    ensures { Gives (number_at MostFirst 4 from.now at) result }
{
    words::get_u32(Order::MostFirst, from, at)
}

// The fields of the first part, which stands in front of an image of any edition: a word each, but for three words of several fields.
// It is taken into `read`, which every call that is given an image makes: left as a call, it made `read` a sixth slower.
#[inline(always)]
fn front(from: &[u8]) -> Fields
    requires { 44 ≤ length from.now }
    ensures { result ≡ fields_in 1 (take 44 from.now) }
{
    let head = word(from, 0);
    let sizes = word(from, 32);
    let done = word(from, 36);
    Fields {
        edition: (head / 0x1000_0000 % 16) as u8,
        mode: (head / 0x400_0000 % 4) as u8,
        phase: (head / 0x80_0000 % 8) as u8,
        armed: head / 0x40_0000 % 2 == 1,
        pending: head / 0x20_0000 % 2 == 1,
        fault: (head / 0x1_0000 % 32) as u8,
        status: (head / 256 % 256) as u8,
        count: (head % 256) as u8,
        control: word(from, 4),
        pointer: word(from, 8),
        base: word(from, 12),
        window: word(from, 16),
        address: word(from, 20),
        source: word(from, 24),
        destination: word(from, 28),
        size: (sizes / 0x1_0000 % 0x1_0000) as u16,
        dcontrol: (sizes / 256 % 256) as u8,
        errors: (sizes % 256) as u8,
        moved: (done / 0x1_0000 % 0x1_0000) as u16,
        eop: done / 0x8000 % 2 == 1,
        zero15: (done % 0x8000) as u16,
        faultat: word(from, 40),
    }
}

// What edition 2 adds, of the bytes of an image; all zero where they are not of its size.
pub fn tail_in(from: &[u8]) -> Tail
    ensures { Gives (tail from.now) result }
{
    if from.len() == SIZE {
        let first = from[TAIL];
        return Tail {
            kind: first / 64,
            zero6: first % 64,
            at: word(from, SLOT_AT),
            raw: raw_in(from, SLOT_BYTES),
            run: word(from, RUN_NUMBER),
        };
    }
    Tail {
        kind: 0,
        zero6: 0,
        at: 0,
        raw: Raw::ZERO,
        run: 0,
    }
}

// The slot's last rule, over the bytes of an image: those of a descriptor are not looked at.
fn bytes_kept_in(from: &[u8], kind: u8) -> bool
    ensures { result ≡ slot_bytes_kept kind (is_zero (raw_at from.now 49)) }
{
    if kind == DESCRIPTOR {
        return true;
    }
    raw_in(from, SLOT_BYTES).is_zero()
}

// The slot's rules over the bytes of an image. Phase, window and pointer are read again here: taken from the fields, the compiler would
// keep all of these at hand.
fn slot_kept_in(from: &[u8]) -> bool
    requires { length from.now ≡ 85 }
    ensures { result ≡ slot_kept_of (fields from.now) (tail from.now) }
{
    let first = from[TAIL];
    let kind = first / 64;
    let phase = (word(from, 0) / 0x80_0000 % 8) as u8;
    held_kept(phase, kind)
        & (first % 64 == 0)
        & slot_at_kept(
            word(from, 12),
            word(from, 16),
            word(from, 8),
            kind,
            word(from, SLOT_AT),
        )
        & bytes_kept_in(from, kind)
}

// Reads an image: its fields, where it has the right size and all of them keep the rules. Where they do not, the field is told from the bytes,
// which are read again: what that call is given is kept for it on the way of every good image too, and that is the slice alone.
pub fn read(from: &[u8]) -> Result<Fields, Refusal>
    ensures { ImageWasRead from.now result }
{
    if from.len() != SIZE {
        return Err(Refusal::BadSize);
    }
    let f = front(from);
    let kept = core_kept(f) & slot_kept_in(from);
    if !kept {
        let spoiled = from;
        return Err(Refusal::BadImage(broken_in(EDITION, spoiled).unwrap_or(0)));
    }
    Ok(f)
}

// Writes the image of fields that keep the rules. Where it is refused nothing is written.
pub fn write(f: Fields, t: Tail, to: &mut [u8]) -> Result<(), Refusal>
    ensures { Wrote f t to.old result to.new }
{
    if to.len() != SIZE {
        return Err(Refusal::BadSize);
    }
    if !keeps(f, t) {
        return Err(refused(f, t));
    }
    pack(f, t, to);
    Ok(())
}

// Whether each number fits its width. Where the type has no more bits than the width it does.
#[tactic(auto, unfolding(crate::specs::Helpers::WasPut::fits))]
fn fit(f: Fields, t: Tail) -> bool
    ensures { result ≡ fits f t }
{
    (f.edition < 16)
        & (f.mode < 4)
        & (f.phase < 8)
        & (f.fault < 32)
        & (f.zero15 < 0x8000)
        & (t.kind < 4)
        & (t.zero6 < 64)
}

// Writes the image of fields, whether they keep the rules or not: for a caller that knows that they do. Where the size is wrong or
// a number does not fit its width it is refused, and nothing is written.
pub fn put(f: Fields, t: Tail, to: &mut [u8]) -> Result<(), Refusal>
    ensures { ImageWasPut f t to.old result to.new }
{
    if to.len() == SIZE {
        if fit(f, t) {
            pack(f, t, to);
            Ok(())
        } else {
            Err(refused(f, t))
        }
    } else {
        Err(Refusal::BadSize)
    }
}
