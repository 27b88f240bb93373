// The answers of the C calls as bytes, the most significant byte of each number first.
//
// Every call is total: where the lent slice is not of the answer's size nothing is written.
#![tactic(auto)]

ghost use Rattle.words.specs.Promise.{Leaves};
ghost use Rattle.answers.specs.Answers.{value_bytes, report_bytes, descriptor_bytes, finding_bytes, answer_put};

use descriptor::Descriptor;
use words::{Order, flag, put_u16, put_u32, put_words};

// The sizes of the answers.
pub const VALUE: usize = 4;

pub const REPORT: usize = 18;

pub const DESCRIPTOR: usize = 18;

pub const FINDING: usize = 4;

// The 4 bytes of a register's value, or of the interrupt line.
pub fn put_value(value: &mut [u8], v: u32)
    ensures { Leaves (answer_put (value_bytes v) value.old) value.new }
{
    if value.len() != VALUE {
        return;
    }
    put_u32(Order::MostFirst, value, 0, v);
}

// The 18 bytes of a run's report. The reason is its number: crate machine, which has the enum, stands above.
pub fn put_report(report: &mut [u8], reason: u16, steps: u32, taken: u32, made: u32, used: u32)
    ensures { Leaves (answer_put (report_bytes reason steps taken made used) report.old) report.new }
{
    if report.len() != REPORT {
        return;
    }
    let counts = [steps, taken, made, used];
    put_u16(Order::MostFirst, report, 0, reason);
    put_words(Order::MostFirst, report, 2, &counts);
}

// The 18 bytes of a descriptor answer.
pub fn put_descriptor(answer: &mut [u8], d: Descriptor)
    ensures { Leaves (answer_put (descriptor_bytes d) answer.old) answer.new }
{
    if answer.len() != DESCRIPTOR {
        return;
    }
    let counts = d.length as u32 * 0x1_0000 + d.actual as u32;
    let words = [d.source, d.destination, d.next, counts];
    let last = d.status as u16 * 256 + d.control.0 as u16;
    put_words(Order::MostFirst, answer, 0, &words);
    put_u16(Order::MostFirst, answer, 16, last);
}

// The 4 bytes of what the ledger tells of a descriptor: whether it was found, and its latest byte count. A flag beside the count, and no
// `Option`: what is promised (`finding_bytes`) is told of a count that was not found too.
pub fn put_finding(answer: &mut [u8], found: bool, count: u16)
    ensures { Leaves (answer_put (finding_bytes found count) answer.old) answer.new }
{
    if answer.len() != FINDING {
        return;
    }
    put_u16(Order::MostFirst, answer, 0, flag(found) as u16);
    put_u16(Order::MostFirst, answer, 2, count);
}
