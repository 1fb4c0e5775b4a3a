// Withdrawing a pair from a live pool (document 02, W-206 and W-207). All is checked before anything is moved, so that a refusal leaves every table and the count as they
// were.
#![tactic(auto)]

ghost use Rattle.std.specs.Prelude.{◌≡◌, ◌-◌, ◌≤◌, length};
ghost use Rattle.refusal.specs.Answer.{outcome};
ghost use Rattle.pool.specs.Tables.{item_in};
ghost use Rattle.fields.specs.Lent.{fields_lent, fields_left};
ghost use Rattle.graph.specs.Graph.{graph};
ghost use Rattle.graph.specs.Lent.{graph_now, lent_graph};
ghost use Rattle.live.specs.Suitable.{with_numbers};
ghost use Rattle.live.specs.Calls.{place_of, without_pair, without_row, withdrawing};
ghost use Rattle.live.specs.Answers.{answer_of};
ghost use Rattle.live.specs.Lent.{lent_live};
ghost use Rattle.live.specs.Promises.{WithdrawsRightly};
ghost use Rattle.withdrawing.specs.Preconditions.{OneOf};

use fields::FieldsMut;
use refusal::Refusal;

// The place of the first of n ids that is this one; n where none is.
fn place_of(ids: &[u32], n: usize, id: u32) -> usize
    requires { n ≤ length ids.now }
    ensures { result ≡ place_of n (item_in ids.now) id }
{
    ids[..n].iter().position(|known| *known == id).unwrap_or(n)
}

// Pair a of n goes out of the tables: its number, and its donor out of the others', its fields, and its row and column of M and W.
fn take_out(
    a: usize,
    n: usize,
    fields: FieldsMut,
    compatibilities: &mut [u8],
    weights: &mut [u16],
    suitable: &mut [u16],
)
    requires { OneOf a n (fields_lent fields) (graph_now compatibilities weights) suitable.old }
    ensures fields { fields_left fields.exit ≡ without_pair a n (fields_lent fields.entry) }
    ensures graph { let g = lent_graph compatibilities weights in
        g.exit ≡ graph (without_row a n g.entry.compatibilities) (without_row a n g.entry.weights) }
    ensures numbers { suitable.new ≡ with_numbers (n - 1) (without_row a n compatibilities.old) suitable.old }
{
    suiting::take_out(a, n, compatibilities, suitable);
    shifting::without_entry(fields.ids, a, n);
    shifting::without_entry(fields.donor_blood, a, n);
    shifting::without_entry(fields.patient_blood, a, n);
    shifting::without_entry(fields.donor_age, a, n);
    shifting::without_entry(fields.patient_age, a, n);
    shifting::without_entry(fields.donor_antigens, a, n);
    shifting::without_entry(fields.patient_antigens, a, n);
    shifting::without_entry(fields.patient_antibodies, a, n);
    shifting::without_row(compatibilities, a, n);
    shifting::without_row(weights, a, n);
}

// Withdraws the first pair with this id; the later ones move down by one. Of M and W, whatever they hold, one row and one column are taken out, and
// each number is the ones in its column of what is left of M.
pub fn withdraw(
    count: &mut usize,
    points: &[u16],
    ids: &mut [u32],
    donor_blood: &mut [u8],
    patient_blood: &mut [u8],
    donor_age: &mut [u8],
    patient_age: &mut [u8],
    donor_antigens: &mut [u64],
    patient_antigens: &mut [u64],
    patient_antibodies: &mut [u64],
    compatibilities: &mut [u8],
    weights: &mut [u16],
    suitable: &mut [u16],
    id: u32,
) -> Result<(), Refusal>
    ensures equals { let l = lent_live count points ids donor_blood patient_blood donor_age patient_age
        donor_antigens patient_antigens patient_antibodies compatibilities weights suitable in
        outcome (answer_of result) l.exit ≡ withdrawing id l.entry }
    ensures rightly { let l = lent_live count points ids donor_blood patient_blood donor_age patient_age
        donor_antigens patient_antigens patient_antibodies compatibilities weights suitable in
        WithdrawsRightly id l.entry (outcome (answer_of result) l.exit) }
{
    let n = *count;
    let fields = FieldsMut {
        ids,
        donor_blood,
        patient_blood,
        donor_age,
        patient_age,
        donor_antigens,
        patient_antigens,
        patient_antibodies,
    };
    let lent = fields.read();
    let space = lent.room().min(suitable.len());
    keeping::judge(n, space, compatibilities, weights.len(), suitable, points)?;
    let at = place_of(lent.ids, n, id);
    if at == n {
        return Err(Refusal::UnknownId);
    }
    take_out(at, n, fields, compatibilities, weights, suitable);
    *count = n - 1;
    Ok(())
}
