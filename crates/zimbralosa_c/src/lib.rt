// The region and the removal under names that C and Rust programs link (bindings/): each is the library's function. A slice is passed as two
// arguments, its pointer and its length.
#![tactic(auto)]

ghost use Rattle.method.specs.Entry.{run_hex};
ghost use Rattle.zimbralosa.specs.Entries.{lent};
ghost use Rattle.zimbralosa.specs.Exports.{RegionCounted, RemovalTold};

use method::Record;
use zimbralosa::exports;

// The region of a model given as hex bytes.
#[unsafe(no_mangle)]
pub extern "C" fn zimbralosa_region(
    input: &[u8],
    first: &mut [i32],
    second: &mut [i32],
    rows: &mut [i32],
    res: &mut [i32],
    roll: &mut [Record],
    budget: usize,
    counts: &mut [u64],
) -> u8
    ensures { RegionCounted (run_hex budget input.now (lent first.old second.old rows.old res.old roll.old)) counts.old first.new second.new rows.new res.new roll.new counts.new result }
{
    exports::zimbralosa_region(input, first, second, rows, res, roll, budget, counts)
}

// The rows at the front of the first store without the variables.
#[unsafe(no_mangle)]
pub extern "C" fn zimbralosa_remove(
    first: &mut [i32],
    second: &mut [i32],
    count: usize,
    variables: &[u8],
    answer: &mut [u64],
) -> u8
    ensures { RemovalTold count variables.now first.old second.old answer.old first.new second.new answer.new result }
{
    exports::zimbralosa_remove(first, second, count, variables, answer)
}
