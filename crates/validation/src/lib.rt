// What planning checks of its input before anything is filled: 4, 13, 9, 8, 10, 17.
#![tactic(auto)]

ghost use Rattle.std.specs.Prelude.{◌≡◌, ◌*◌, ◌≤◌, ◌<◌, ltb, eqb, not, length};
ghost use Rattle.laws.specs.Below.{either, any_below};
ghost use Rattle.refusal.specs.Fault.{refuse, ◌then◌};
ghost use Rattle.refusal.specs.Number.{fault_at};
ghost use Rattle.exchange.specs.Subsets.{up_to_three, entry};
ghost use Rattle.exchange.specs.Input.{request};
ghost use Rattle.exchange.specs.Planning.{lengths, most_floor, short_to_read, short_to_fill, table_fault, weightless, edge_fault, plan_fault};

use refusal::Refusal;

// "Planning takes a floor, 0 to 200,000."
const MOST_FLOOR: u32 = 200000;

// 4, then 13, then 9 of the tables that are read, by their lengths.
fn readable(n: usize, floor: u32, m: usize, w: usize, shuffle: usize) -> Result<(), Refusal>
    ensures { fault_at 0 result ≡ (refuse 4 0 (ltb 200 n) then refuse 13 0 (ltb most_floor floor) then short_to_read n m w shuffle) }
{
    if n > 200 {
        return Err(Refusal::TooManyPairs);
    }
    if floor > MOST_FLOOR {
        return Err(Refusal::FloorTooHigh);
    }
    if m < n * n {
        return Err(Refusal::TooShort);
    }
    if w < n * n {
        return Err(Refusal::TooShort);
    }
    if shuffle < n {
        return Err(Refusal::TooShort);
    }
    Ok(())
}

// 9 of the tables that are to be filled, by their lengths; of the records, by how many there is room for.
fn fillable(
    n: usize,
    weights: usize,
    choices: usize,
    donors: usize,
    recipients: usize,
    room: usize,
) -> Result<(), Refusal>
    requires { n ≤ 200 }
    ensures { fault_at 0 result ≡ short_to_fill (up_to_three n) (lengths weights choices donors recipients room) }
{
    if weights < cursor::count(n) {
        return Err(Refusal::TooShort);
    }
    if choices < n / 2 {
        return Err(Refusal::TooShort);
    }
    if donors < n {
        return Err(Refusal::TooShort);
    }
    if recipients < n {
        return Err(Refusal::TooShort);
    }
    if room < n / 2 {
        return Err(Refusal::TooShort);
    }
    Ok(())
}

// Is an entry of row i above 1?
fn above_one(n: usize, m: &[u8], i: usize) -> bool
    requires { (i < n) × (n ≤ 200) × (n * n ≤ length m.now) }
    ensures { result ≡ any_below n (λ j. ltb 1 (entry m.now n i j)) }
{
    (0..n).any(|j| entries::compatible(m, n, i, j) > 1)
}

// Is an entry of row i above 1, or M(i, i) not 0?
#[tactic(auto, unfolding(laws::specs::Below::either))]
fn faulty_row(n: usize, m: &[u8], i: usize) -> bool
    requires { (i < n) × (n ≤ 200) × (n * n ≤ length m.now) }
    ensures { result ≡ either (any_below n (λ j. ltb 1 (entry m.now n i j))) (not (eqb (entry m.now n i i) 0)) }
{
    above_one(n, m, i) || entries::compatible(m, n, i, i) != 0
}

// 10: an M entry above 1, or M(i, i) not 0.
fn compatibility(n: usize, m: &[u8]) -> Result<(), Refusal>
    requires { (n ≤ 200) × (n * n ≤ length m.now) }
    ensures { fault_at 0 result ≡ table_fault n m.now }
{
    if (0..n).any(|i| faulty_row(n, m, i)) {
        return Err(Refusal::NotCompatibility);
    }
    Ok(())
}

// Is M(i, j) 1 and W(i, j) 0? W is read where M is 1, and nowhere else.
fn weightless_edge(n: usize, m: &[u8], w: &[u16], i: usize, j: usize) -> bool
    requires { (i < n) × (j < n) × (n ≤ 200) × (n * n ≤ length m.now) × (n * n ≤ length w.now) }
    ensures { result ≡ weightless n m.now w.now i j }
{
    if entries::compatible(m, n, i, j) != 1 {
        return false;
    }
    entries::points(w, n, i, j) == 0
}

// Has row i a weightless edge?
fn weightless_row(n: usize, m: &[u8], w: &[u16], i: usize) -> bool
    requires { (i < n) × (n ≤ 200) × (n * n ≤ length m.now) × (n * n ≤ length w.now) }
    ensures { result ≡ any_below n (weightless n m.now w.now i) }
{
    (0..n).any(|j| weightless_edge(n, m, w, i, j))
}

// 17: a present edge weighs 0.
fn edges(n: usize, m: &[u8], w: &[u16]) -> Result<(), Refusal>
    requires { (n ≤ 200) × (n * n ≤ length m.now) × (n * n ≤ length w.now) }
    ensures { fault_at 0 result ≡ edge_fault n m.now w.now }
{
    if (0..n).any(|i| weightless_row(n, m, w, i)) {
        return Err(Refusal::WeightlessEdge);
    }
    Ok(())
}

// "Planning checks 4, 9, 8, 10", with 13 "after 4" and 17 "after 10".
pub fn judge(
    n: usize,
    floor: u32,
    m: &[u8],
    w: &[u16],
    shuffle: &[u16],
    weights: usize,
    choices: usize,
    donors: usize,
    recipients: usize,
    room: usize,
) -> Result<(), Refusal>
    ensures { let a = request n floor m.now w.now shuffle.now in
        fault_at 0 result ≡ plan_fault a (lengths weights choices donors recipients room) }
{
    readable(n, floor, m.len(), w.len(), shuffle.len())?;
    fillable(n, weights, choices, donors, recipients, room)?;
    checks::shuffle(shuffle, n)?;
    compatibility(n, m)?;
    edges(n, m, w)
}
