// A sheet answered (document 01, 'Writer and printout'): it is read, its tables are built, its pool is planned, and the plan is printed; or the
// refusal of reading is printed. Nothing else refuses: what reading accepts can be built, what is built can be planned, and the buffer holds every
// text. So no other answer is a refusal: that is proved, where each is unwrapped.
#![tactic(auto)]

ghost use Rattle.std.specs.Prelude.{◌≡◌, ◌≤◌, length};
ghost use Rattle.refusal.specs.Answer.{finished, outcome};
ghost use Rattle.refusal.specs.Number.{number_of};
ghost use Rattle.pool.specs.Tables.{item_in, pair_in, points_of_table};
ghost use Rattle.fields.specs.Lent.{tables_in};
ghost use Rattle.exchange.specs.Input.{no_floor, input_of, request};
ghost use Rattle.printout.specs.Printed.{plan_text, refusal_text};
ghost use Rattle.buffers.specs.Preconditions.{FaultlessTables};
ghost use Rattle.answers.specs.Answering.{plan_by, printed_plan_of, putting};
ghost use Rattle.answers.specs.Promises.{AnswersSheet};
ghost use Rattle.answering.specs.Preconditions.{Read};

use fields::Tables;
use reader::Head;
use refusal::Refused;

// Prints the plan of n pairs with these ids and tables, and gives the text's length.
fn print_planned(
    n: usize,
    ids: &[u32],
    m: &[u8],
    w: &[u16],
    shuffle: &[u16],
    out: &mut [u8; 1458],
) -> usize
    requires { FaultlessTables (request n no_floor m.now w.now shuffle.now) × (n ≤ length ids.now) }
    ensures { let a = request n no_floor m.now w.now shuffle.now in
        let plan = plan_by ids.now (input_of a) in
        outcome (finished result) out.new ≡ putting (plan_text plan) out.old }
{
    let mut donors = [0u16; 40];
    let mut recipients = [0u16; 40];
    let made = buffers::plan_tables(n, m, w, shuffle, &mut donors, &mut recipients);
    printout::print_plan(
        n,
        made.cycles,
        made.weight,
        ids,
        &donors[..n],
        &recipients[..n],
        made.tally.comparisons,
        made.tally.products,
        made.tally.rounds,
        out,
    )
    .unwrap()
}

// Builds the tables of the pool that its head and its tables say, by the points of its version, plans it, and prints the plan.
fn print_pool(head: Head, tables: &Tables, out: &mut [u8; 1458]) -> usize
    requires { Read head.version head.pairs (tables_in tables.now) }
    ensures { let t = tables_in tables.now in
        let plan = printed_plan_of (points_of_table head.version t.points) head.pairs (pair_in t.fields) (item_in t.shuffle) in
        outcome (finished result) out.new ≡ putting (plan_text plan) out.old }
{
    // 40 rows of 40.
    let mut m = [0u8; 1600];
    let mut w = [0u16; 1600];
    let n = head.pairs;
    weighing::build(
        head.version,
        n,
        &*tables.points,
        tables.fields(),
        &mut m,
        &mut w,
    )
    .unwrap();
    print_planned(n, &tables.ids[..n], &m, &w, &tables.shuffle[..n], out)
}

// Prints a refusal, and gives the text's length.
fn print_refused(refused: Refused, out: &mut [u8; 1458]) -> usize
    ensures { outcome (finished result) out.new ≡ putting (refusal_text (number_of refused.why) refused.place) out.old }
{
    printout::print_refusal(refused.why, refused.place, out).unwrap()
}

// Prints the answer to a sheet: the plan of its pool, or the refusal. Gives the text's length. A text has at most 1,458 bytes.
pub fn answer(sheet: &[u8], out: &mut [u8; 1458]) -> usize
    ensures { AnswersSheet sheet.now out.old (outcome (finished result) out.new) }
{
    let mut tables = Tables {
        points: &mut [0; 6],
        ids: &mut [0; 40],
        donor_blood: &mut [0; 40],
        patient_blood: &mut [0; 40],
        donor_age: &mut [0; 40],
        patient_age: &mut [0; 40],
        donor_antigens: &mut [0; 40],
        patient_antigens: &mut [0; 40],
        patient_antibodies: &mut [0; 40],
        shuffle: &mut [0; 40],
    };
    match reader::read(sheet, &mut tables) {
        Err(refused) => print_refused(refused, out),
        Ok(head) => print_pool(head, &tables, out),
    }
}
