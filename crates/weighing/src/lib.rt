// Building (document 01, 'Compatibility and weight'): the tables M and W from a pool's fields, weighed by the points of its version (document 02,
// W-205). All is checked before anything is filled, so that a refusal leaves both tables as they were.
#![tactic(auto)]

ghost use Rattle.std.specs.Prelude.{◌≡◌};
ghost use Rattle.refusal.specs.Answer.{outcome};
ghost use Rattle.refusal.specs.Number.{fault_at};
ghost use Rattle.fields.specs.Lent.{fields_in};
ghost use Rattle.graph.specs.Lent.{lent_graph};
ghost use Rattle.weighing.specs.Building.{build_fault, building};
ghost use Rattle.weighing.specs.Answers.{answer_of};
ghost use Rattle.weighing.specs.Promises.{BuildsRightly};

use fields::Fields;
use refusal::Refusal;

// 3, 4, 9, 14, 6 and 7 of the fields and the points; then 9 of the tables to be filled, by their lengths.
fn judge(
    version: u16,
    n: usize,
    points: &[u16],
    fields: Fields,
    compatibilities: usize,
    weights: usize,
) -> Result<(), Refusal>
    ensures { fault_at 0 result ≡ build_fault version n points.now (fields_in fields.entry) compatibilities weights }
{
    checks::pairs(version, n, fields.room(), points, fields)?;
    // N is at most 200 here, so the product fits.
    let entries = n * n;
    if compatibilities < entries {
        return Err(Refusal::TooShort);
    }
    if weights < entries {
        return Err(Refusal::TooShort);
    }
    Ok(())
}

// Builds the tables M and W, N rows of N, from the first N entries of a pool's fields. Version 2 is weighed by the six points lent, version 1 by
// document 01's: "lent ones are neither read nor changed".
pub fn build(
    version: u16,
    n: usize,
    points: &[u16],
    fields: Fields,
    compatibilities: &mut [u8],
    weights: &mut [u16],
) -> Result<(), Refusal>
    ensures equals { let f = fields_in fields.entry in
        let g = lent_graph compatibilities weights in
        let p = points.now in
        outcome (answer_of result) g.exit ≡ building version n p f g.entry }
    ensures rightly { let f = fields_in fields.entry in
        let g = lent_graph compatibilities weights in
        let p = points.now in
        BuildsRightly version n p f g.entry (outcome (answer_of result) g.exit) }
{
    judge(
        version,
        n,
        points,
        fields,
        compatibilities.len(),
        weights.len(),
    )?;
    graph::fill(
        donation::points_of(version, points),
        n,
        fields,
        compatibilities,
        weights,
    );
    // Both tables are filled.
    Ok(())
}
