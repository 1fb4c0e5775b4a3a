// What two or more of reading, writing, building, planning and the calls of a live pool check alike: 6, 7, 8 and 9 of a pool's tables, and of lent ones 3, 4 and 14 before these.
#![tactic(auto)]

ghost use Rattle.std.specs.Prelude.{◌≡◌, List, ℕ, ◌+◌, ◌≤◌, ◌<◌, min, length, get_or, eqb};
ghost use Rattle.laws.specs.Below.{any_below, count_below};
ghost use Rattle.refusal.specs.Number.{fault_at};
ghost use Rattle.pool.specs.Pool.{Pair};
ghost use Rattle.pool.specs.Points.{point_count, points_of};
ghost use Rattle.pool.specs.Tables.{item_in, pair_in};
ghost use Rattle.pool.specs.Faults.{group_fault, pair_fault, points_fault, tables_fault, before_fault, pairs_fault, shuffle_fault};
ghost use Rattle.fields.specs.Lent.{fields_in};
ghost use Rattle.checks.specs.Preconditions.{PairAgrees, TablesHaveRoom};

use fields::Fields;
use refusal::Refusal;

// 6: a blood group above 3 or an age group above 1.
pub fn groups(
    donor_blood: u8,
    patient_blood: u8,
    donor_age: u8,
    patient_age: u8,
) -> Result<(), Refusal>
    ensures { (o : ℕ) → fault_at o result ≡ group_fault o donor_blood patient_blood donor_age patient_age }
{
    if donor_blood > 3 {
        return Err(Refusal::OutOfRange);
    }
    if patient_blood > 3 {
        return Err(Refusal::OutOfRange);
    }
    if donor_age > 1 {
        return Err(Refusal::OutOfRange);
    }
    if patient_age > 1 {
        return Err(Refusal::OutOfRange);
    }
    Ok(())
}

// Is this id among the first n?
pub fn among(ids: &[u32], n: usize, id: u32) -> bool
    requires { n ≤ length ids.now }
    ensures { result ≡ any_below n (λ j. eqb (get_or ids.now j 0) id) }
{
    ids[..n].contains(&id)
}

// 6 and 7 of pair i, whose groups are these and whose id stands at i, after those of the earlier pairs.
pub fn pair(
    i: usize,
    ids: &[u32],
    donor_blood: u8,
    patient_blood: u8,
    donor_age: u8,
    patient_age: u8,
) -> Result<(), Refusal>
    requires { i < length ids.now }
    ensures { (o : ℕ) (p : ℕ → Pair)
        → PairAgrees p i ids.now donor_blood patient_blood donor_age patient_age
        → fault_at o result ≡ pair_fault o p i }
{
    groups(donor_blood, patient_blood, donor_age, patient_age)?;
    if among(ids, i, ids[i]) {
        Err(Refusal::RepeatedId)
    } else {
        Ok(())
    }
}

// 9 of n pairs and the points of a version: tables for the pairs whose shortest has `space` entries, and one of so many points.
pub fn tables(version: u16, n: usize, space: usize, points: usize) -> Result<(), Refusal>
    ensures { (l : List ℕ) → length l ≡ points → fault_at 0 result ≡ tables_fault version n space l }
{
    if space < n {
        return Err(Refusal::TooShort);
    }
    if points < layout::point_count(version) {
        return Err(Refusal::TooShort);
    }
    Ok(())
}

// 14 of a pool's own points. Version 1 has none, and its table is not looked at.
fn judge_points(version: u16, table: &[u16]) -> Result<(), Refusal>
    requires { point_count version ≤ length table.now }
    ensures { (o : ℕ) → fault_at o result ≡ points_fault o (points_of version (item_in table.now)) }
{
    if layout::has_points(version) {
        points::judge(points::own(table))
    } else {
        Ok(())
    }
}

// What is looked at before the pairs, in a pool of n pairs in lent tables: 3, 4, 9, 14.
fn ready(version: u16, n: usize, space: usize, points: &[u16]) -> Result<(), Refusal>
    ensures { fault_at 0 result ≡ before_fault version n space points.now }
{
    if !layout::known(version) {
        return Err(Refusal::WrongVersion);
    }
    if n > 200 {
        return Err(Refusal::TooManyPairs);
    }
    tables(version, n, space, points.len())?;
    judge_points(version, points)
}

// The first n pairs of lent tables, of which the shortest of all has `space` entries, and their points: 3, 4, 9, 14, then 6 and 7 pair by pair.
pub fn pairs(
    version: u16,
    n: usize,
    space: usize,
    points: &[u16],
    fields: Fields,
) -> Result<(), Refusal>
    requires { TablesHaveRoom space (fields_in fields) }
    ensures { let t = fields_in fields.entry in
        (f g h : List ℕ)
        → fault_at 0 result ≡ pairs_fault version n space points.now
        (pair_in (record t { donor_antigens = f; patient_antigens = g; patient_antibodies = h })) }
{
    ready(version, n, space, points)?;
    for i in 0..n {
        pair(
            i,
            fields.ids,
            fields.donor_blood[i],
            fields.patient_blood[i],
            fields.donor_age[i],
            fields.patient_age[i],
        )?;
    }
    Ok(())
}

// How often v stands among the first n numbers.
fn times(s: &[u16], n: usize, v: usize) -> usize
    requires { n ≤ length s.now }
    ensures { result ≡ count_below n (λ j. eqb (get_or s.now j 0) v) }
{
    let mut count: usize = 0;
    for j in 0..n {
        if s[j] as usize == v {
            count += 1;
        }
    }
    count
}

// 8: not each of 0 .. n - 1 once among the first n numbers.
pub fn shuffle(s: &[u16], n: usize) -> Result<(), Refusal>
    requires { n ≤ length s.now }
    ensures { (o : ℕ) → fault_at o result ≡ shuffle_fault o n (λ j. get_or s.now j 0) }
{
    for v in 0..n {
        if times(s, n, v) != 1 {
            return Err(Refusal::NotAShuffle);
        }
    }
    Ok(())
}
