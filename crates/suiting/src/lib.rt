// How many donors suit each patient of a live pool (document 02, W-207): the ones in the columns of M, counted row by row; the stored numbers held to them; and
// the numbers that are left where a pair goes.
#![tactic(auto)]

ghost use Rattle.std.specs.Prelude.{◌≡◌, not, ◌+◌, ◌-◌, ◌≤◌, eqb, length};
ghost use Rattle.laws.specs.Below.{table, one};
ghost use Rattle.laws.specs.Lent.{filled};
ghost use Rattle.refusal.specs.Fault.{refuse, first_below};
ghost use Rattle.refusal.specs.Number.{fault_at};
ghost use Rattle.pool.specs.Tables.{item_in};
ghost use Rattle.live.specs.Suitable.{with_numbers};
ghost use Rattle.live.specs.Faults.{numbers_fault};
ghost use Rattle.live.specs.Calls.{without_row};
ghost use Rattle.suiting.specs.Counted.{ones_above};
ghost use Rattle.suiting.specs.Preconditions.{Countable, CountedAbove, Lowerable};

use refusal::Refusal;

// 1 where an entry of M is a one; an entry 2 is none.
#[tactic(auto, unfolding(laws::specs::Below::one))]
fn one_of(entry: u8) -> u16
    ensures { result ≡ one (eqb entry 1) }
{
    (entry == 1) as u16
}

// Row i, donor i's, is counted too, where the rows above it are.
fn add_row(i: usize, n: usize, compatibilities: &[u8], counts: &mut [u16])
    requires { CountedAbove i n compatibilities.now counts.old }
    ensures { counts.new ≡ filled (table n (ones_above (i + 1) n compatibilities.now)) counts.old }
{
    let start = i * n;
    for j in 0..n {
        counts[j] += one_of(compatibilities[start + j]);
    }
}

// The ones in each of M's n columns.
pub fn count(n: usize, compatibilities: &[u8], counts: &mut [u16])
    requires { Countable n compatibilities.now counts.old }
    ensures { counts.new ≡ with_numbers n compatibilities.now counts.old }
{
    counts[..n].fill(0);
    for i in 0..n {
        add_row(i, n, compatibilities, counts);
    }
}

// 10: one of the first n numbers isn't the one counted.
fn compare(n: usize, counts: &[u16], suitable: &[u16]) -> Result<(), Refusal>
    requires n_in_bounds { n ≤ length counts.now }
    requires n_in_bounds_2 { n ≤ length suitable.now }
    ensures { fault_at 0 result ≡ first_below n (λ j. refuse 10 0 (not (eqb (item_in suitable.now j) (item_in counts.now j)))) }
{
    for j in 0..n {
        if suitable[j] != counts[j] {
            return Err(Refusal::NotCompatibility);
        }
    }
    Ok(())
}

// 10: a stored number isn't the ones in its column.
pub fn judge(n: usize, compatibilities: &[u8], suitable: &[u16]) -> Result<(), Refusal>
    requires { Countable n compatibilities.now suitable.now }
    ensures { fault_at 0 result ≡ numbers_fault n compatibilities.now suitable.now }
{
    let mut counts = [0u16; 200];
    count(n, compatibilities, &mut counts);
    compare(n, &counts, suitable)
}

// Pair a of n goes, while M still has its row: each number moves to its patient's new place, less by one where donor a suits that patient.
#[tactic(auto, using(crate::proofs::Counting::before_inside, graph::proofs::Rows::row_fits, graph::proofs::Rows::rows_few))]
pub fn take_out(a: usize, n: usize, compatibilities: &[u8], suitable: &mut [u16])
    requires { Lowerable a n compatibilities.now suitable.old }
    ensures { suitable.new ≡ with_numbers (n - 1) (without_row a n compatibilities.now) suitable.old }
{
    let start = a * n;
    let m = n - 1;
    for j in 0..m {
        let before = shifting::place_before(a, j);
        suitable[j] = suitable[before] - one_of(compatibilities[start + before]);
    }
}
