// A pool in lent tables written as a sheet into a lent buffer (document 01, 'The pool sheet' and 'Writer and printout', with 02's version 2). Everything is
// checked before anything is written, so that a refusal leaves the buffer as it was.
#![tactic(auto)]

ghost use Rattle.std.specs.Prelude.{◌≡◌, ◌≤◌, length};
ghost use mathlib.Core.List.{flat_map};
ghost use Rattle.laws.specs.Below.{table};
ghost use Rattle.laws.specs.Lent.{filled, stored};
ghost use Rattle.refusal.specs.Answer.{outcome};
ghost use Rattle.refusal.specs.Number.{fault_at};
ghost use Rattle.pool.specs.Points.{point_count};
ghost use Rattle.pool.specs.Sheet.{first_pair, pair_place, sheet_length, opening, pair_field, sheet_of};
ghost use Rattle.pool.specs.Tables.{item_in, tables, pair_in, pool_in};
ghost use Rattle.pool.specs.Faults.{pool_fault};
ghost use Rattle.pool.specs.Calls.{writing};
ghost use Rattle.pool.specs.Faultless.{FieldsHold, TablesHold};
ghost use Rattle.pool.specs.Promises.{WritesRightly};
ghost use Rattle.fields.specs.Lent.{fields_in};
ghost use Rattle.writer.specs.Answers.{answer_of};

use fields::Fields;
use refusal::Refusal;

// What stands before the pairs: the head, and the points of version 2.
fn put_opening(out: &mut [u8], version: u16, n: usize, points: &[u16])
    requires { (first_pair version ≤ length out.old) × (point_count version ≤ length points.now) }
    ensures { let own = table (point_count version) (item_in points.now) in
        out.new ≡ stored 0 (opening version n own) out.old }
{
    encoding::put_head(out, version as u64, n as u64);
    if layout::has_points(version) {
        encoding::put_field(
            out,
            layout::POINTS_PLACE,
            layout::POINTS_TAG,
            layout::POINTS,
            points,
        );
    }
}

// The fields of the first n pairs.
fn put_pairs(out: &mut [u8], version: u16, n: usize, fields: Fields)
    requires n_bound { (n ≤ 200) × (pair_place version n ≤ length out.old) }
    requires fact { FieldsHold n (fields_in fields) }
    ensures { out.new ≡ stored (first_pair version) (flat_map pair_field (table n (pair_in (fields_in fields.entry)))) out.old }
{
    for i in 0..n {
        encoding::put_pair(
            out,
            layout::pair_place(version, i),
            fields.ids[i],
            fields.donor_blood[i],
            fields.patient_blood[i],
            fields.donor_age[i],
            fields.patient_age[i],
            fields.donor_antigens[i],
            fields.patient_antigens[i],
            fields.patient_antibodies[i],
        );
    }
}

// The sheet of n pairs, their points and their shuffle.
fn put_sheet(
    out: &mut [u8],
    version: u16,
    n: usize,
    points: &[u16],
    fields: Fields,
    shuffle: &[u16],
)
    requires fact { TablesHold version n (tables points.now (fields_in fields) shuffle.now) }
    requires n_bound { (n ≤ 200) × (sheet_length version n ≤ length out.old) }
    ensures { let t = tables points.now (fields_in fields.entry) shuffle.now in
        out.new ≡ filled (sheet_of (pool_in version n t)) out.old }
{
    put_opening(out, version, n, points);
    put_pairs(out, version, n, fields);
    encoding::put_field(
        out,
        layout::pair_place(version, n),
        layout::SHUFFLE_TAG,
        n,
        shuffle,
    );
}

// The first fault of the pool: 3, 4, 9 of its tables, 14, 6 and 7 pair by pair, 8.
fn judge(
    version: u16,
    n: usize,
    points: &[u16],
    fields: Fields,
    shuffle: &[u16],
) -> Result<(), Refusal>
    ensures { let t = tables points.now (fields_in fields.entry) shuffle.now in
        fault_at 0 result ≡ pool_fault version n t }
{
    let shortest = fields.room().min(shuffle.len());
    checks::pairs(version, n, shortest, points, fields)?;
    checks::shuffle(shuffle, n)
}

// Writes the pool of this version in the first n entries of the tables into the lent buffer, and gives the sheet's length; a refusal has place 0. Of
// version 1 the points are not looked at.
pub fn write(
    version: u16,
    n: usize,
    points: &[u16],
    fields: Fields,
    shuffle: &[u16],
    out: &mut [u8],
) -> Result<usize, Refusal>
    ensures equals { let t = tables points.now (fields_in fields.entry) shuffle.now in
        outcome (answer_of result) out.new ≡ writing version n t out.old }
    ensures rightly { let t = tables points.now (fields_in fields.entry) shuffle.now in
        WritesRightly version n t out.old (outcome (answer_of result) out.new) }
{
    judge(version, n, points, fields, shuffle)?;
    let length = layout::sheet_length(version, n);
    if out.len() < length {
        return Err(Refusal::TooShort);
    }
    put_sheet(out, version, n, points, fields, shuffle);
    Ok(length)
}
