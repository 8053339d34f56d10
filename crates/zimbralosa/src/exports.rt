// The region and the removal as C and Rust programs call them through the crate `zimbralosa_c`: the answer's numbers go to a lent store.
ghost use Rattle.std.specs.Prelude.{◌≡◌};
ghost use Rattle.method.specs.Entry.{run_hex};
ghost use Rattle.zimbralosa.specs.Entries.{lent};
ghost use Rattle.zimbralosa.specs.Exports.{Counted, RegionCounted, Told, RemovalTold};

use attempts::Answer;
use method::Record;
use removal::Placed;
use sets::Refusal;

// An answer's four counts to the front of a store that takes them, and the number of its outcome.
#[tactic(auto, unfolding(crate::specs::Exports::counts_after))]
fn put_counts(a: Answer, counts: &mut [u64]) -> u8
    ensures { Counted a counts.old counts.new result }
{
    if let Some(front) = counts.first_chunk_mut() {
        *front = [
            a.states as u64,
            a.attempts as u64,
            a.formed as u64,
            a.rows as u64,
        ];
    }
    sets::outcome_number(a.outcome)
}

// The region of a model given as hex bytes.
pub fn zimbralosa_region(
    input: &[u8],
    first: &mut [i32],
    second: &mut [i32],
    rows: &mut [i32],
    res: &mut [i32],
    roll: &mut [Record],
    budget: usize,
    counts: &mut [u64],
) -> u8
    ensures { RegionCounted (run_hex budget input.now (lent first.old second.old rows.old res.old roll.old)) counts.old first.new second.new rows.new res.new roll.new counts.new result }
{
    let a = super::from_hex(input, first, second, rows, res, roll, budget);
    put_counts(a, counts)
}

// In which store the rows stand (1 for the second) and how many they are, to the front of a store that takes the two numbers; and the number
// of the outcome.
#[tactic(auto, unfolding(crate::specs::Exports::placed_after))]
fn put_placed(placed: Result<Placed, Refusal>, answer: &mut [u64]) -> u8
    ensures { Told placed answer.old answer.new result }
{
    let (numbers, number) = match placed {
        Ok(p) => ([u64::from(p.second), p.rows as u64], 0),
        Err(refusal) => ([0, 0], u8::from(refusal)),
    };
    if let Some(front) = answer.first_chunk_mut() {
        *front = numbers;
    }
    number
}

// The rows at the front of the first store without the variables.
pub fn zimbralosa_remove(
    first: &mut [i32],
    second: &mut [i32],
    count: usize,
    variables: &[u8],
    answer: &mut [u64],
) -> u8
    ensures { RemovalTold count variables.now first.old second.old answer.old first.new second.new answer.new result }
{
    put_placed(
        removal::remove_between(first, second, count, variables),
        answer,
    )
}
