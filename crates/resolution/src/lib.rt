// Resolution: the chosen cycles as records and as partners, with their weight. It is not tallied, and may look at a choice.
#![tactic(auto)]

ghost use Rattle.std.specs.Prelude.{◌≡◌, [], ◌∷◌, ◌^◌, ◌≤◌, ◌<◌, length, set};
ghost use Rattle.laws.specs.Below.{table};
ghost use Rattle.exchange.specs.Subsets.{up_to_three, edges};
ghost use Rattle.exchange.specs.Resolution.{pairs_of, record_of};
ghost use Rattle.cursor.specs.Cursor.{OnSubset, subset_at};
ghost use Rattle.entries.specs.Preconditions.{weight_of, Readable, Shuffled};
ghost use Rattle.resolution.specs.Records.{given, received, given_in, received_in, cycle_of, cycles_of, none_yet, with_cycle, resolved_cycles, Added};
ghost use Rattle.resolution.specs.Preconditions.{Partners, RecordRoom, One, Resolving};

use cursor::Places;
use cycle::Cycle;

// A cycle's record and its weight.
#[derive(Clone, Copy)]
pub struct Giving {
    pub cycle: Cycle,
    pub weight: usize,
}

// The weight and the number of some cycles, and their records from the first on.
#[derive(Clone, Copy)]
pub struct Resolved {
    pub weight: usize,
    pub cycles: usize,
    pub records: [Cycle; 100],
}

// The record of three numbers.
fn record_of(first: usize, second: usize, third: usize) -> Cycle
    requires { (first < 2 ^ 16) × (second < 2 ^ 16) × (third < 2 ^ 16) }
    ensures { (result.first ≡ first) × (result.second ≡ second) × (result.third ≡ third) }
{
    Cycle {
        first: first as u16,
        second: second as u16,
        third: third as u16,
    }
}

// The cycle that the subset at the cursor is weighed by.
fn cycle_at(n: usize, m: &[u8], w: &[u16], s: &[u16], p: Places) -> Giving
    requires { Readable n m.now w.now × Shuffled n s.now × OnSubset n p }
    ensures { let c = cycle_of n m.now w.now s.now (subset_at n p) in
        (result.cycle ≡ record_of n c) × (result.weight ≡ weight_of n m.now w.now c) }
{
    let Places { u, v, w: x } = p;
    let a = s[u] as usize;
    let b = s[v] as usize;
    if x == n {
        return Giving {
            cycle: record_of(a, b, n),
            weight: entries::two(m, w, n, a, b),
        };
    }
    let c = s[x] as usize;
    let first = entries::three(m, w, n, a, b, c);
    let second = entries::three(m, w, n, a, c, b);
    if first < second {
        return Giving {
            cycle: record_of(a, c, b),
            weight: second,
        };
    }
    Giving {
        cycle: record_of(a, b, c),
        weight: first,
    }
}

// Pair a's donor gives to patient b.
fn give(a: u16, b: u16, donors: &mut [u16], recipients: &mut [u16])
    requires { (a < length recipients.old) × (b < length donors.old) }
    ensures { (recipients.new ≡ set recipients.old a b) × (donors.new ≡ set donors.old b a) }
{
    recipients[a as usize] = b;
    donors[b as usize] = a;
}

// The edges of a cycle.
#[tactic(auto, using(crate::proofs::Partnered::given_two, crate::proofs::Partnered::received_two, crate::proofs::Partnered::given_three, crate::proofs::Partnered::received_three))]
fn engage(n: usize, c: Cycle, donors: &mut [u16], recipients: &mut [u16])
    requires { Partners n c donors.old recipients.old }
    ensures { (recipients.new ≡ given (edges (pairs_of n c)) recipients.old)
        × (donors.new ≡ received (edges (pairs_of n c)) donors.old) }
{
    let Cycle {
        first,
        second,
        third,
    } = c;
    give(first, second, donors, recipients);
    if third as usize == n {
        give(second, first, donors, recipients);
        return;
    }
    give(second, third, donors, recipients);
    give(third, first, donors, recipients);
}

// No partner yet.
fn alone(n: usize, partners: &mut [u16])
    requires { (n ≤ 200) × (length partners.old ≤ 200) }
    ensures { partners.new ≡ table (length partners.old) (λ i. n) }
{
    let none = n as u16;
    for partner in partners.iter_mut() {
        *partner = none;
    }
}

// No cycle yet.
fn none(n: usize) -> Resolved
    requires { n ≤ 200 }
    ensures { result ≡ none_yet n }
{
    Resolved {
        weight: 0,
        cycles: 0,
        records: [record_of(n, n, n); 100],
    }
}

// One cycle more.
fn append(so_far: Resolved, g: Giving) -> Resolved
    requires { RecordRoom so_far g }
    ensures { result ≡ with_cycle so_far g }
{
    let at = so_far.cycles;
    let mut records = so_far.records;
    records[at] = g.cycle;
    Resolved {
        weight: so_far.weight + g.weight,
        cycles: at + 1,
        records,
    }
}

// The cycle of one choice, where it chose one, after those so far.
fn resolve_one(
    n: usize,
    m: &[u8],
    w: &[u16],
    s: &[u16],
    choice: usize,
    so_far: Resolved,
    donors: &mut [u16],
    recipients: &mut [u16],
) -> Resolved
    requires { One n m.now w.now s.now so_far donors.old recipients.old }
    ensures { let cs = cycles_of (up_to_three n) m.now w.now s.now (choice ∷ []) in
        Added n m.now w.now cs so_far donors.old recipients.old
        result donors.new recipients.new }
{
    if cursor::count(n) <= choice {
        return so_far;
    }
    let g = cycle_at(n, m, w, s, cursor::at(n, choice));
    engage(n, g.cycle, donors, recipients);
    append(so_far, g)
}

// All choices, in order. `donors` and `recipients` have an entry for each pair.
pub fn resolve(
    n: usize,
    m: &[u8],
    w: &[u16],
    s: &[u16],
    choices: &[u32],
    donors: &mut [u16],
    recipients: &mut [u16],
) -> Resolved
    requires { Resolving n m.now w.now s.now choices.now donors.old recipients.old }
    ensures { let cs = cycles_of (up_to_three n) m.now w.now s.now choices.now in
        (result ≡ resolved_cycles n m.now w.now cs)
        × (donors.new ≡ received_in n cs)
        × (recipients.new ≡ given_in n cs) }
{
    alone(n, donors);
    alone(n, recipients);
    let mut resolved = none(n);
    for choice in choices {
        resolved = resolve_one(n, m, w, s, *choice as usize, resolved, donors, recipients);
    }
    resolved
}
