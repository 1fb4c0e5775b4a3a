// Registering a pair in a live pool (document 02, W-206 and W-207). All is checked before anything is filled, so that a refusal leaves every table and the count as they
// were.
#![tactic(auto)]

ghost use Rattle.std.specs.Prelude.{◌≡◌, ◌+◌, ◌≤◌, length};
ghost use Rattle.refusal.specs.Fault.{◌then◌};
ghost use Rattle.refusal.specs.Answer.{outcome};
ghost use Rattle.refusal.specs.Number.{fault_at};
ghost use Rattle.pool.specs.Tables.{pair_in};
ghost use Rattle.fields.specs.Lent.{fields_in, fields_lent, fields_left};
ghost use Rattle.graph.specs.Lent.{graph_now, lent_graph};
ghost use Rattle.checks.specs.Preconditions.{TablesHaveRoom};
ghost use Rattle.live.specs.Faults.{stored_fault, range_fault, like_fault, more_fault};
ghost use Rattle.live.specs.Live.{live};
ghost use Rattle.live.specs.Faultless.{Registrable};
ghost use Rattle.live.specs.Calls.{registered, registering};
ghost use Rattle.live.specs.Answers.{answer_of, named};
ghost use Rattle.live.specs.Lent.{lent_live};
ghost use Rattle.live.specs.Promises.{RegistersRightly};

use fields::{Fields, FieldsMut};
use live::Pair;
use refusal::Refusal;

// 6 over all pairs, the first n and the new one, and then 7 over them.
fn pairs(n: usize, fields: Fields, pair: Pair) -> Result<(), Refusal>
    requires { TablesHaveRoom n (fields_in fields) }
    ensures { let stored = pair_in (fields_in fields.entry) in
        fault_at 0 result ≡ (range_fault n stored (named pair) then like_fault n stored (named pair)) }
{
    keeping::groups(
        n,
        fields.donor_blood,
        fields.patient_blood,
        fields.donor_age,
        fields.patient_age,
    )?;
    checks::groups(
        pair.donor_blood,
        pair.patient_blood,
        pair.donor_age,
        pair.patient_age,
    )?;
    keeping::ids(n, fields.ids)?;
    if checks::among(fields.ids, n, pair.id) {
        return Err(Refusal::RepeatedId);
    }
    Ok(())
}

// 12 at 200 pairs, and 9 where one more doesn't fit.
fn more(n: usize, space: usize, compatibilities: usize, weights: usize) -> Result<(), Refusal>
    requires { n ≤ 200 }
    ensures { fault_at 0 result ≡ more_fault n space compatibilities weights }
{
    if n == 200 {
        return Err(Refusal::TooManyTogether);
    }
    if space < n + 1 {
        return Err(Refusal::TooShort);
    }
    keeping::rows(n + 1, compatibilities, weights)
}

// The first fault: 4, 9, 14 and 10 of the pool, 6 and 7 over all pairs, 12 and 9 of one more. The shortest table with an entry for each pair has `space`
// entries.
fn judge(
    n: usize,
    space: usize,
    points: &[u16],
    fields: Fields,
    compatibilities: &[u8],
    weights: usize,
    suitable: &[u16],
    pair: Pair,
) -> Result<(), Refusal>
    requires tables_have_room { TablesHaveRoom space (fields_in fields) }
    requires space_in_bounds { space ≤ length suitable.now }
    ensures { let stored = pair_in (fields_in fields.entry) in
        let m = compatibilities.now in
        fault_at 0 result ≡ (stored_fault n space m weights points.now suitable.now then range_fault n stored (named pair)
        then like_fault n stored (named pair) then more_fault n space (length m) weights) }
{
    keeping::judge(n, space, compatibilities, weights, suitable, points)?;
    pairs(n, fields, pair)?;
    more(n, space, compatibilities.len(), weights)
}

// A pair after the first n, and both tables built anew: from all pairs and by the pool's points, whatever they held. The numbers are counted in the M
// so built: the old ones are those of the M that was lent, which need not be that of the pairs.
fn add(
    n: usize,
    points: &[u16],
    fields: FieldsMut,
    compatibilities: &mut [u8],
    weights: &mut [u16],
    suitable: &mut [u16],
    pair: Pair,
)
    requires { Registrable (named pair) (live n points.now (fields_lent fields) (graph_now compatibilities weights) suitable.old) }
    ensures { let g = lent_graph compatibilities weights in
        let l = live n points.now (fields_lent fields.entry) g.entry suitable.old in
        live (n + 1) points.now (fields_left fields.exit) g.exit suitable.new ≡ registered (named pair) l }
{
    let FieldsMut {
        ids,
        donor_blood,
        patient_blood,
        donor_age,
        patient_age,
        donor_antigens,
        patient_antigens,
        patient_antibodies,
    } = fields;
    ids[n] = pair.id;
    donor_blood[n] = pair.donor_blood;
    patient_blood[n] = pair.patient_blood;
    donor_age[n] = pair.donor_age;
    patient_age[n] = pair.patient_age;
    donor_antigens[n] = pair.donor_antigens;
    patient_antigens[n] = pair.patient_antigens;
    patient_antibodies[n] = pair.patient_antibodies;
    graph::fill(
        points::own(points),
        n + 1,
        Fields {
            ids,
            donor_blood,
            patient_blood,
            donor_age,
            patient_age,
            donor_antigens,
            patient_antigens,
            patient_antibodies,
        },
        compatibilities,
        weights,
    );
    suiting::count(n + 1, compatibilities, suitable);
}

// Registers a pair at the end.
pub fn register(
    count: &mut usize,
    points: &[u16],
    ids: &mut [u32],
    donor_blood: &mut [u8],
    patient_blood: &mut [u8],
    donor_age: &mut [u8],
    patient_age: &mut [u8],
    donor_antigens: &mut [u64],
    patient_antigens: &mut [u64],
    patient_antibodies: &mut [u64],
    compatibilities: &mut [u8],
    weights: &mut [u16],
    suitable: &mut [u16],
    pair: Pair,
) -> Result<(), Refusal>
    ensures equals { let l = lent_live count points ids donor_blood patient_blood donor_age patient_age
        donor_antigens patient_antigens patient_antibodies compatibilities weights suitable in
        outcome (answer_of result) l.exit ≡ registering (named pair) l.entry }
    ensures rightly { let l = lent_live count points ids donor_blood patient_blood donor_age patient_age
        donor_antigens patient_antigens patient_antibodies compatibilities weights suitable in
        RegistersRightly (named pair) l.entry (outcome (answer_of result) l.exit) }
{
    let n = *count;
    let fields = FieldsMut {
        ids,
        donor_blood,
        patient_blood,
        donor_age,
        patient_age,
        donor_antigens,
        patient_antigens,
        patient_antibodies,
    };
    let lent = fields.read();
    let space = lent.room().min(suitable.len());
    judge(
        n,
        space,
        points,
        lent,
        compatibilities,
        weights.len(),
        suitable,
        pair,
    )?;
    add(n, points, fields, compatibilities, weights, suitable, pair);
    *count = n + 1;
    Ok(())
}
