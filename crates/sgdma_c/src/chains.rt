// The C calls over a chain in memory: those of crate links.
ghost use Rattle.links.specs.Calls.{ChainChecked, ChainMended};

use bus::number_of;
use links::calls;

// Checks the chain from `pointer` on in a window at `base`, and tells the verdict in the 10 bytes of `answer`.
#[unsafe(no_mangle)]
pub extern "C" fn sgdma_check_chain(
    window: &[u8],
    base: u64,
    pointer: u32,
    answer: &mut [u8],
) -> u32
    ensures { ChainChecked window.now base pointer answer.old result answer.new }
{
    number_of(calls::check_chain(window, base, pointer, answer))
}

// Mends the chain from `pointer` on in a dump at `base`, and tells in the 8 bytes of `answer` what was changed.
#[unsafe(no_mangle)]
pub extern "C" fn sgdma_mend_chain(
    window: &mut [u8],
    base: u64,
    pointer: u32,
    answer: &mut [u8],
) -> u32
    ensures { ChainMended window.old base pointer answer.old result window.new answer.new }
{
    number_of(calls::mend_chain(window, base, pointer, answer))
}
