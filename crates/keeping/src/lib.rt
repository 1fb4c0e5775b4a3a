// A live pool is started (document 02, W-206); and what registering and withdrawing check alike, with the two checks over all pairs that registering makes.
#![tactic(auto)]

ghost use Rattle.std.specs.Prelude.{◌≡◌, ◌≤◌, length};
ghost use Rattle.laws.specs.Lent.{filled};
ghost use Rattle.refusal.specs.Fault.{first_below};
ghost use Rattle.refusal.specs.Answer.{outcome};
ghost use Rattle.refusal.specs.Number.{fault_at};
ghost use Rattle.pool.specs.Points.{registry_points};
ghost use Rattle.pool.specs.Tables.{item_in};
ghost use Rattle.pool.specs.Faults.{group_fault, id_fault};
ghost use Rattle.points.specs.Named.{named};
ghost use Rattle.live.specs.Faults.{graph_fault, sizes_fault, stored_fault};
ghost use Rattle.live.specs.Calls.{in_order, starting};
ghost use Rattle.live.specs.Answers.{answer_of};
ghost use Rattle.live.specs.Lent.{lent_beginning};
ghost use Rattle.live.specs.Promises.{StartsRightly};
ghost use Rattle.keeping.specs.Preconditions.{HoldGroups};

use points::Points;
use refusal::Refusal;

// The six, in document 01's order, into the first entries of a table.
#[tactic(auto, unfolding(laws::specs::Lent::filled, live::specs::Calls::in_order))]
fn put_points(given: Points, points: &mut [u16])
    requires { registry_points ≤ length points.old }
    ensures { points.new ≡ filled (in_order (named given)) points.old }
{
    points[..6].copy_from_slice(&[
        given.base,
        given.none,
        given.few,
        given.some,
        given.equal,
        given.young_to_senior,
    ]);
}

// Starts a pool with no pairs, whatever the count was, and with these points.
pub fn start(given: Points, points: &mut [u16], count: &mut usize) -> Result<(), Refusal>
    ensures equals { let b = lent_beginning count points in
        outcome (answer_of result) b.exit ≡ starting (named given) b.entry }
    ensures rightly { let b = lent_beginning count points in
        StartsRightly (named given) b.entry (outcome (answer_of result) b.exit) }
{
    points::judge(given)?;
    if points.len() < 6 {
        return Err(Refusal::TooShort);
    }
    put_points(given, points);
    *count = 0;
    Ok(())
}

// 9: n rows of n don't fit M or W, which have so many entries.
pub fn rows(n: usize, compatibilities: usize, weights: usize) -> Result<(), Refusal>
    requires { n ≤ 200 }
    ensures { fault_at 0 result ≡ graph_fault n compatibilities weights }
{
    let entries = n * n;
    if compatibilities < entries {
        return Err(Refusal::TooShort);
    }
    if weights < entries {
        return Err(Refusal::TooShort);
    }
    Ok(())
}

// 4 of the count, 9 of the tables for it and for the points. The shortest table with an entry for each pair has `space` entries, M and W have the next two.
fn sizes(
    n: usize,
    space: usize,
    compatibilities: usize,
    weights: usize,
    points: &[u16],
) -> Result<(), Refusal>
    ensures { fault_at 0 result ≡ sizes_fault n space compatibilities weights points.now }
{
    if n > 200 {
        return Err(Refusal::TooManyPairs);
    }
    checks::tables(2, n, space, points.len())?;
    rows(n, compatibilities, weights)
}

// What both calls look at first: 4 and 9, 14 of the points, 10 of the numbers.
pub fn judge(
    n: usize,
    space: usize,
    compatibilities: &[u8],
    weights: usize,
    suitable: &[u16],
    points: &[u16],
) -> Result<(), Refusal>
    requires { space ≤ length suitable.now }
    ensures { fault_at 0 result ≡ stored_fault n space compatibilities.now weights points.now suitable.now }
{
    sizes(n, space, compatibilities.len(), weights, points)?;
    points::judge(points::own(points))?;
    suiting::judge(n, compatibilities, suitable)
}

// 6 of the first n pairs.
pub fn groups(
    n: usize,
    donor_blood: &[u8],
    patient_blood: &[u8],
    donor_age: &[u8],
    patient_age: &[u8],
) -> Result<(), Refusal>
    requires { HoldGroups n donor_blood.now patient_blood.now donor_age.now patient_age.now }
    ensures { fault_at 0 result ≡ first_below n (λ i. group_fault 0 (item_in donor_blood.now i) (item_in patient_blood.now i)
        (item_in donor_age.now i) (item_in patient_age.now i)) }
{
    for i in 0..n {
        checks::groups(
            donor_blood[i],
            patient_blood[i],
            donor_age[i],
            patient_age[i],
        )?;
    }
    Ok(())
}

// 7 among the first n ids.
pub fn ids(n: usize, ids: &[u32]) -> Result<(), Refusal>
    requires { n ≤ length ids.now }
    ensures { fault_at 0 result ≡ first_below n (id_fault 0 (item_in ids.now)) }
{
    for i in 0..n {
        if checks::among(ids, i, ids[i]) {
            return Err(Refusal::RepeatedId);
        }
    }
    Ok(())
}
