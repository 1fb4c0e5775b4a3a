// The tables M and W (document 01, 'Compatibility and weight'), filled row by row.
#![tactic(auto)]

ghost use Rattle.std.specs.Prelude.{◌≡◌};
ghost use Rattle.pool.specs.Tables.{pair_in};
ghost use Rattle.pool.specs.Faultless.{SoundPoints};
ghost use Rattle.points.specs.Named.{named};
ghost use Rattle.fields.specs.Lent.{fields_in};
ghost use Rattle.donation.specs.Compatibility.{compatibility};
ghost use Rattle.donation.specs.Weight.{weight};
ghost use Rattle.graph.specs.Graph.{filled_graph, with_row};
ghost use Rattle.graph.specs.Lent.{graph_now, lent_graph};
ghost use Rattle.graph.specs.Sources.{lent_for_m, lent_for_w};
ghost use Rattle.graph.specs.Preconditions.{Row, ReadableForM, ReadableForW, Buildable};

use fields::Fields;
use points::Points;

// Row i of M: donor i, and each patient.
fn compatibility_row(
    i: usize,
    n: usize,
    donor_blood: &[u8],
    patient_blood: &[u8],
    donor_antigens: &[u64],
    patient_antibodies: &[u64],
    compatibilities: &mut [u8],
)
    requires row { Row i n compatibilities.old }
    requires readable_for_m { ReadableForM n donor_blood.now patient_blood.now donor_antigens.now patient_antibodies.now }
    ensures { let f = lent_for_m donor_blood patient_blood donor_antigens patient_antibodies in
        compatibilities.new ≡ with_row n (compatibility (pair_in f)) i compatibilities.old }
{
    let blood = donor_blood[i];
    let antigens = donor_antigens[i];
    let start = i * n;
    for j in 0..n {
        compatibilities[start + j] = donation::compatibility(
            i,
            j,
            blood,
            patient_blood[j],
            antigens,
            patient_antibodies[j],
        );
    }
}

// Row i of W: the same donor and patients, by these points.
fn weight_row(
    points: Points,
    i: usize,
    n: usize,
    donor_age: &[u8],
    patient_age: &[u8],
    donor_antigens: &[u64],
    patient_antigens: &[u64],
    weights: &mut [u16],
)
    requires row { Row i n weights.old }
    requires readable_for_w { ReadableForW n donor_age.now patient_age.now donor_antigens.now patient_antigens.now }
    requires sound_points { SoundPoints (named points) }
    ensures { let f = lent_for_w donor_age patient_age donor_antigens patient_antigens in
        weights.new ≡ with_row n (weight (named points) (pair_in f)) i weights.old }
{
    let age = donor_age[i];
    let antigens = donor_antigens[i];
    let start = i * n;
    for j in 0..n {
        weights[start + j] = donation::weight(
            points,
            i,
            j,
            age,
            patient_age[j],
            antigens,
            patient_antigens[j],
        );
    }
}

// N rows of both tables, weighed by any points that 14 lets pass.
pub fn fill(
    points: Points,
    n: usize,
    fields: Fields,
    compatibilities: &mut [u8],
    weights: &mut [u16],
)
    requires { Buildable (named points) n (fields_in fields) (graph_now compatibilities weights) }
    ensures { let g = lent_graph compatibilities weights in
        g.exit ≡ filled_graph (named points) n (pair_in (fields_in fields.entry)) g.entry }
{
    for i in 0..n {
        compatibility_row(
            i,
            n,
            fields.donor_blood,
            fields.patient_blood,
            fields.donor_antigens,
            fields.patient_antibodies,
            compatibilities,
        );
        weight_row(
            points,
            i,
            n,
            fields.donor_age,
            fields.patient_age,
            fields.donor_antigens,
            fields.patient_antigens,
            weights,
        );
    }
}
