// Makes the paper's eleven known runs through the C calls and prints a line for each: the reason, the steps, the beats taken, the
// status, the pointer, the descriptor's last four bytes, the fault, and the beats made. It ends with the error of a write that
// failed, or of a call that is refused.
#![tactic(auto)]

use bus::Refusal;
use std::io;

// What differs from run to run. The descriptor stands at 4096 of a window of 256 bytes at 4096, and two bytes are held at 4224.
#[derive(Clone, Copy)]
struct Row {
    mode: u32,
    source: u32,
    destination: u32,
    next: u32,
    length: u16,
    owned: u8,
    pointer: u32,
    control: u32,
    budget: u32,
    held: u8,
    also: u8,
}

// The first run's.
const FIRST: Row = Row {
    mode: 2,
    source: 0,
    destination: 4224,
    next: 4128,
    length: 4,
    owned: 0x80,
    pointer: 4096,
    control: 0x20,
    budget: 100,
    held: 0,
    also: 0,
};

const BASE: u64 = 4096;

const FOUR: [u8; 8] = [0, 0x11, 0, 0x22, 0, 0x33, 0, 0x44];

const EIGHT: [u8; 16] = [
    0, 0x11, 0, 0x22, 0, 0x33, 0, 0x44, 0, 0x11, 0, 0x22, 0, 0x33, 0, 0x44,
];

// No call of these runs is refused.
fn refused(_why: Refusal) -> io::Error {
    io::Error::other("a call was refused")
}

fn byte(from: &[u8], at: usize) -> u8 {
    from.get(at).copied().unwrap_or(0)
}

fn word(from: &[u8], at: usize) -> u32 {
    words::get_u32(words::Order::MostFirst, from, at)
}

// The value of a register.
fn register(image: &[u8], offset: u32) -> Result<u32, Refusal> {
    let mut value = [0u8; 4];
    sgdma::sgdma_read_register(image, offset, &mut value)?;
    Ok(word(&value, 0))
}

// What is found after a run. The fault's code and address stand in the image.
fn tell(
    rt: &impl Print,
    name: &str,
    image: &[u8],
    window: &[u8],
    out: &[u8],
    report: &[u8],
) -> io::Result<()> {
    let reason = byte(report, 1);
    let steps = word(report, 2);
    let taken = word(report, 6);
    let made = word(report, 10);
    let status = register(image, 0).map_err(refused)?;
    let pointer = register(image, 8).map_err(refused)?;
    let fault = byte(image, 1) % 32;
    let at = word(image, 40);
    let last = word(window, 28);
    let first = word(out, 0);
    print!(rt; "{name} reason {reason} steps {steps} taken {taken} made {made}")?;
    print!(rt; " status {status} pointer {pointer} fault {fault} at {at}")?;
    println!(rt; " last {last:08x} out {first:08x}")
}

// One run, over a fresh core, with room for two beats.
fn made(rt: &impl Print, name: &str, row: Row, beats: &[u8]) -> io::Result<()> {
    let mut image = [0u8; 85];
    let mut window = [0u8; 256];
    let mut out = [0u8; 4];
    let mut ledger = [0u8; 48];
    let mut report = [0u8; 18];
    window[128] = row.held;
    window[129] = row.also;
    sgdma::sgdma_create(&mut image, row.mode, BASE, 256).map_err(refused)?;
    sgdma::sgdma_build_descriptor(
        &mut window,
        BASE,
        4096,
        row.source,
        row.destination,
        row.next,
        row.length,
        row.owned,
    )
    .map_err(refused)?;
    sgdma::sgdma_write_register(&mut image, 8, row.pointer).map_err(refused)?;
    sgdma::sgdma_write_register(&mut image, 4, row.control).map_err(refused)?;
    sgdma::sgdma_run(
        &mut image,
        &mut window,
        beats,
        &mut out,
        &mut ledger,
        0,
        row.budget,
        &mut report,
    )
    .map_err(refused)?;
    tell(rt, name, &image, &window, &out, &report)
}

// From memory to a stream, two bytes as they are held.
const SENT: Row = Row {
    mode: 1,
    source: 4224,
    length: 2,
    owned: 0x85,
    held: 0xAA,
    also: 0xBB,
    ..FIRST
};

// The runs, each with its name, what differs, and the beats that it is lent.
const RUNS: [(&str, Row, &[u8]); 15] = [
    ("1.", FIRST, &FOUR),
    ("2.", FIRST, &[0, 0x11, 1, 0x22, 0, 0x33, 0, 0x44]),
    (
        "3.",
        Row {
            pointer: 4128,
            ..FIRST
        },
        &FOUR,
    ),
    ("4.", FIRST, &[0, 0x11, 0, 0x22, 0, 0x33]),
    (
        "5.",
        Row {
            control: 0x60,
            ..FIRST
        },
        &[0, 0x11, 0, 0x22, 6, 0x33, 0, 0x44],
    ),
    (
        "6.",
        Row {
            control: 0x2_0020,
            next: 4096,
            ..FIRST
        },
        &EIGHT,
    ),
    (
        "7.",
        Row {
            destination: 4350,
            ..FIRST
        },
        &FOUR,
    ),
    (
        "8. 4098",
        Row {
            pointer: 4098,
            ..FIRST
        },
        &FOUR,
    ),
    (
        "8. 4324",
        Row {
            pointer: 4324,
            ..FIRST
        },
        &FOUR,
    ),
    (
        "8. 4320",
        Row {
            pointer: 4320,
            ..FIRST
        },
        &FOUR,
    ),
    (
        "9.",
        Row {
            mode: 0,
            length: 0,
            ..FIRST
        },
        &FOUR,
    ),
    ("10. length 2", SENT, &FOUR),
    ("10. length 1", Row { length: 1, ..SENT }, &FOUR),
    ("11. budget 8", Row { budget: 8, ..FIRST }, &FOUR),
    ("11. budget 7", Row { budget: 7, ..FIRST }, &FOUR),
];

fn main(rt: HostRuntime) -> io::Result<()> {
    for (name, row, beats) in RUNS {
        made(&rt, name, row, beats)?;
    }
    Ok(())
}
