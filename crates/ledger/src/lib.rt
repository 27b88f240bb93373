// The dated ledger: records of 12 bytes, one for each write-back, each put behind those used; and what they tell of a run.
#![tactic(auto)]

ghost use Rattle.std.specs.Prelude.{◌≡◌, ◌+◌, ◌*◌, ◌≤◌, length, None};
ghost use Rattle.words.specs.Bits.{flag as flag_of};
ghost use Rattle.words.specs.Promise.{Gives};
ghost use Rattle.ledger.specs.Records.{capacity as capacity_of, has_room, is_ledger, Appended};
ghost use Rattle.ledger.specs.Finding.{entry_of, entries_in, is_of, latest, finding_in};

use bus::Refusal;
use words::{Order, flag, get_u16, get_u32, put_words};

// What is kept of a write-back: the run and the descriptor's address; actual, status and EOP as written back.
#[derive(Clone, Copy, Debug, PartialEq, Eq)]
pub struct Entry {
    pub run: u32,
    pub at: u32,
    pub actual: u16,
    pub status: u8,
    pub eop: bool,
}

// The bytes of a record.
const RECORD: usize = 12;

// No more records than this are told.
const MOST: usize = u32::MAX as usize;

// The largest run number: more than one run may have it.
const LAST_RUN: u32 = u32::MAX;

// How many records so many bytes hold.
#[tactic(auto, unfolding(crate::specs::Records::capacity))]
fn capacity(bytes: usize) -> usize
    ensures { result ≡ capacity_of bytes }
{
    (bytes / RECORD).min(MOST)
}

// The last four bytes of a record as a word.
fn last(actual: u16, status: u8, eop: bool) -> u32
    ensures { result ≡ actual * 65536 + status * 256 + flag_of eop }
{
    actual as u32 * 0x1_0000 + status as u32 * 256 + flag(eop) as u32
}

// Whether there is room for one more. `used` stands beside the bytes, as sgdma_run lends them: a struct would be two, to read and to write.
pub fn has_room(ledger: &[u8], used: u32) -> bool
    ensures { Gives (has_room (length ledger.now) used) result }
{
    (used as usize) < capacity(ledger.len())
}

// Whole records, and no fewer than are said to be used.
pub fn serves(ledger: &[u8], used: u32) -> bool
    ensures { Gives (is_ledger (length ledger.now) used) result }
{
    let n = ledger.len();
    n % RECORD == 0 && used as usize <= n / RECORD
}

// Puts a record behind those used, where there is room, and tells how many are used now.
pub fn append(ledger: &mut [u8], used: u32, e: Entry) -> u32
    ensures { Appended ledger.old used e result ledger.new }
{
    if has_room(ledger, used) {
        let words = [e.run, e.at, last(e.actual, e.status, e.eop)];
        put_words(Order::MostFirst, ledger, RECORD * used as usize, &words);
        return used + 1;
    }
    used
}

// Whether a record is of this descriptor, written back in this run. The address is looked at first: few records have it.
fn is_of(entry: &[u8], run: u32, address: u32) -> bool
    ensures { Gives (is_of run address (entry_of entry.now)) result }
{
    get_u32(Order::MostFirst, entry, 4) == address && get_u32(Order::MostFirst, entry, 0) == run
}

// Goes through the records from the last used to the first: the first that is asked for is the latest. Each is lent by itself, so that
// its size is known where its words are read. A chain of chunks_exact, rev and find took twice as long for each
// record, and missed the aim of twice the model's time.
fn seek(ledger: &[u8], used: u32, run: u32, address: u32) -> Option<u16>
    requires { 12 * used ≤ length ledger.now }
    ensures { Gives (latest run address None (entries_in ledger.now used)) result }
{
    for i in (0..used as usize).rev() {
        let entry = &ledger[RECORD * i..RECORD * i + RECORD];
        if is_of(entry, run, address) {
            return Some(get_u16(Order::MostFirst, entry, 8));
        }
    }
    None
}

// Tells whether the descriptor at this address was written back in this run, and its latest byte count there.
#[tactic(auto, unfolding(crate::specs::Finding::finding_in))]
pub fn find(ledger: &[u8], used: u32, run: u32, address: u32) -> Result<Option<u16>, Refusal>
    ensures { Gives (finding_in ledger.now used run address) result }
{
    if !serves(ledger, used) {
        return Err(Refusal::BadLedger);
    }
    if run == LAST_RUN {
        return Err(Refusal::RunUnknown);
    }
    Ok(seek(ledger, used, run, address))
}
