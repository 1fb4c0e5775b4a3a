// The library's calls with a C boundary (include/vadivuzhen.h). Each hands its arguments on, and answers in numbers (crate `numbers`).
#![tactic(auto)]

ghost use Rattle.std.specs.Prelude.{◌≡◌};
ghost use Rattle.pool.specs.Lent.{lent_fields, lent_tables, mut_lent_tables};
ghost use Rattle.pool.specs.Calls.{reading, writing};
ghost use Rattle.pool.specs.Promises.{ReadsRightly, WritesRightly};
ghost use Rattle.pool.specs.Joining.{joining};
ghost use Rattle.pool.specs.Joinable.{JoinsRightly};
ghost use Rattle.graph.specs.Lent.{lent_graph};
ghost use Rattle.weighing.specs.Building.{building};
ghost use Rattle.weighing.specs.Promises.{BuildsRightly};
ghost use Rattle.points.specs.Named.{named as named_points};
ghost use Rattle.live.specs.Calls.{starting, registering, withdrawing};
ghost use Rattle.live.specs.Answers.{named};
ghost use Rattle.live.specs.Lent.{lent_beginning, lent_live};
ghost use Rattle.live.specs.Promises.{StartsRightly, RegistersRightly, WithdrawsRightly};
ghost use Rattle.exchange.specs.Input.{request};
ghost use Rattle.exchange.specs.Planning.{planning};
ghost use Rattle.exchange.specs.Lent.{lent_plan};
ghost use Rattle.exchange.specs.Promises.{PlansRightly};
ghost use Rattle.printout.specs.Printed.{printed_plan};
ghost use Rattle.printout.specs.Calls.{printing_plan, printing_refusal};
ghost use Rattle.printout.specs.Promises.{PrintsPlan, PrintsRefused};
ghost use Rattle.numbers.specs.Numbers.{read_numbers, write_numbers, join_numbers, build_numbers, live_numbers, plan_numbers, print_numbers};
ghost use Rattle.numbers.specs.Promises.{Numbered, NumberedAt0};

use cycle::Cycle;
use fields::{Fields, Tables};
use live::Pair;
use numbers::{
    BuildAnswer, JoinAnswer, LiveAnswer, PlanAnswer, PrintAnswer, ReadAnswer, WriteAnswer,
};
use points::Points;

// Each contract says: the numbers are those of the answer that is due, and of no other; all that was lent is left as is due; and the call's promise holds
// of that answer.

// Reads a sheet into the lent tables. Of version 1 that of the points is left as it is.
#[unsafe(no_mangle)]
pub extern "C" fn vadivuzhen_read(
    sheet: &[u8],
    points: &mut [u16],
    ids: &mut [u32],
    donor_blood: &mut [u8],
    patient_blood: &mut [u8],
    donor_age: &mut [u8],
    patient_age: &mut [u8],
    donor_antigens: &mut [u64],
    patient_antigens: &mut [u64],
    patient_antibodies: &mut [u64],
    shuffle: &mut [u16],
) -> ReadAnswer
    ensures numbers { let t = mut_lent_tables points ids donor_blood patient_blood donor_age patient_age
        donor_antigens patient_antigens patient_antibodies shuffle in
        let due = reading sheet.now t.entry in
        (result ≡ read_numbers due.answer) × Numbered due.answer }
    ensures lent { let t = mut_lent_tables points ids donor_blood patient_blood donor_age patient_age
        donor_antigens patient_antigens patient_antibodies shuffle in
        let due = reading sheet.now t.entry in
        t.exit ≡ due.lent }
    ensures rightly { let t = mut_lent_tables points ids donor_blood patient_blood donor_age patient_age
        donor_antigens patient_antigens patient_antibodies shuffle in
        let due = reading sheet.now t.entry in
        ReadsRightly sheet.now t.entry due }
{
    reader::read(
        sheet,
        &mut Tables {
            points,
            ids,
            donor_blood,
            patient_blood,
            donor_age,
            patient_age,
            donor_antigens,
            patient_antigens,
            patient_antibodies,
            shuffle,
        },
    )
    .into()
}

// Writes the pool of this version in the first n entries of the tables as a sheet into the lent buffer. Of version 1 the points are not looked at.
#[unsafe(no_mangle)]
pub extern "C" fn vadivuzhen_write(
    version: u16,
    n: usize,
    points: &[u16],
    ids: &[u32],
    donor_blood: &[u8],
    patient_blood: &[u8],
    donor_age: &[u8],
    patient_age: &[u8],
    donor_antigens: &[u64],
    patient_antigens: &[u64],
    patient_antibodies: &[u64],
    shuffle: &[u16],
    out: &mut [u8],
) -> WriteAnswer
    ensures numbers { let t = lent_tables points ids donor_blood patient_blood donor_age patient_age
        donor_antigens patient_antigens patient_antibodies shuffle in
        let due = writing version n t.entry out.old in
        (result ≡ write_numbers due.answer) × NumberedAt0 due.answer }
    ensures lent { let t = lent_tables points ids donor_blood patient_blood donor_age patient_age
        donor_antigens patient_antigens patient_antibodies shuffle in
        let due = writing version n t.entry out.old in
        out.new ≡ due.lent }
    ensures rightly { let t = lent_tables points ids donor_blood patient_blood donor_age patient_age
        donor_antigens patient_antigens patient_antibodies shuffle in
        let due = writing version n t.entry out.old in
        WritesRightly version n t.entry out.old due }
{
    writer::write(
        version,
        n,
        points,
        Fields {
            ids,
            donor_blood,
            patient_blood,
            donor_age,
            patient_age,
            donor_antigens,
            patient_antigens,
            patient_antibodies,
        },
        shuffle,
        out,
    )
    .into()
}

// Joins the second sheet to the first, as one sheet in the lent buffer.
#[unsafe(no_mangle)]
pub extern "C" fn vadivuzhen_join(first: &[u8], second: &[u8], out: &mut [u8]) -> JoinAnswer
    ensures numbers { let due = joining first.now second.now out.old in
        (result ≡ join_numbers due.answer) × Numbered due.answer }
    ensures lent { let due = joining first.now second.now out.old in
        out.new ≡ due.lent }
    ensures rightly { let due = joining first.now second.now out.old in
        JoinsRightly first.now second.now out.old due }
{
    joining::join(first, second, out).into()
}

// Builds the tables M and W from the first n entries of a pool's fields, by its own points in version 2 and by document 01's in version 1.
#[unsafe(no_mangle)]
pub extern "C" fn vadivuzhen_build(
    version: u16,
    n: usize,
    points: &[u16],
    ids: &[u32],
    donor_blood: &[u8],
    patient_blood: &[u8],
    donor_age: &[u8],
    patient_age: &[u8],
    donor_antigens: &[u64],
    patient_antigens: &[u64],
    patient_antibodies: &[u64],
    compatibilities: &mut [u8],
    weights: &mut [u16],
) -> BuildAnswer
    ensures numbers { let f = lent_fields ids donor_blood patient_blood donor_age patient_age
        donor_antigens patient_antigens patient_antibodies in
        let g = lent_graph compatibilities weights in
        let due = building version n points.now f.entry g.entry in
        (result ≡ build_numbers due.answer) × NumberedAt0 due.answer }
    ensures lent { let f = lent_fields ids donor_blood patient_blood donor_age patient_age
        donor_antigens patient_antigens patient_antibodies in
        let g = lent_graph compatibilities weights in
        let due = building version n points.now f.entry g.entry in
        g.exit ≡ due.lent }
    ensures rightly { let f = lent_fields ids donor_blood patient_blood donor_age patient_age
        donor_antigens patient_antigens patient_antibodies in
        let g = lent_graph compatibilities weights in
        let due = building version n points.now f.entry g.entry in
        BuildsRightly version n points.now f.entry g.entry due }
{
    weighing::build(
        version,
        n,
        points,
        Fields {
            ids,
            donor_blood,
            patient_blood,
            donor_age,
            patient_age,
            donor_antigens,
            patient_antigens,
            patient_antibodies,
        },
        compatibilities,
        weights,
    )
    .into()
}

// Starts a live pool with no pairs and these points.
#[unsafe(no_mangle)]
pub extern "C" fn vadivuzhen_start(
    given: Points,
    points: &mut [u16],
    count: &mut usize,
) -> LiveAnswer
    ensures numbers { let b = lent_beginning count points in
        let due = starting (named_points given) b.entry in
        (result ≡ live_numbers due.answer) × NumberedAt0 due.answer }
    ensures lent { let b = lent_beginning count points in
        let due = starting (named_points given) b.entry in
        b.exit ≡ due.lent }
    ensures rightly { let b = lent_beginning count points in
        let due = starting (named_points given) b.entry in
        StartsRightly (named_points given) b.entry due }
{
    keeping::start(given, points, count).into()
}

// Registers a pair at the end of a live pool, builds its tables anew, and counts each patient's donors in them.
#[unsafe(no_mangle)]
pub extern "C" fn vadivuzhen_register(
    count: &mut usize,
    points: &[u16],
    ids: &mut [u32],
    donor_blood: &mut [u8],
    patient_blood: &mut [u8],
    donor_age: &mut [u8],
    patient_age: &mut [u8],
    donor_antigens: &mut [u64],
    patient_antigens: &mut [u64],
    patient_antibodies: &mut [u64],
    compatibilities: &mut [u8],
    weights: &mut [u16],
    suitable: &mut [u16],
    pair: Pair,
) -> LiveAnswer
    ensures numbers { let l = lent_live count points ids donor_blood patient_blood donor_age patient_age
        donor_antigens patient_antigens patient_antibodies compatibilities weights suitable in
        let due = registering (named pair) l.entry in
        (result ≡ live_numbers due.answer) × NumberedAt0 due.answer }
    ensures lent { let l = lent_live count points ids donor_blood patient_blood donor_age patient_age
        donor_antigens patient_antigens patient_antibodies compatibilities weights suitable in
        let due = registering (named pair) l.entry in
        l.exit ≡ due.lent }
    ensures rightly { let l = lent_live count points ids donor_blood patient_blood donor_age patient_age
        donor_antigens patient_antigens patient_antibodies compatibilities weights suitable in
        let due = registering (named pair) l.entry in
        RegistersRightly (named pair) l.entry due }
{
    registering::register(
        count,
        points,
        ids,
        donor_blood,
        patient_blood,
        donor_age,
        patient_age,
        donor_antigens,
        patient_antigens,
        patient_antibodies,
        compatibilities,
        weights,
        suitable,
        pair,
    )
    .into()
}

// Withdraws the first pair of a live pool that has this id, with its row, its column, and its donor in the others' numbers.
#[unsafe(no_mangle)]
pub extern "C" fn vadivuzhen_withdraw(
    count: &mut usize,
    points: &[u16],
    ids: &mut [u32],
    donor_blood: &mut [u8],
    patient_blood: &mut [u8],
    donor_age: &mut [u8],
    patient_age: &mut [u8],
    donor_antigens: &mut [u64],
    patient_antigens: &mut [u64],
    patient_antibodies: &mut [u64],
    compatibilities: &mut [u8],
    weights: &mut [u16],
    suitable: &mut [u16],
    id: u32,
) -> LiveAnswer
    ensures numbers { let l = lent_live count points ids donor_blood patient_blood donor_age patient_age
        donor_antigens patient_antigens patient_antibodies compatibilities weights suitable in
        let due = withdrawing id l.entry in
        (result ≡ live_numbers due.answer) × NumberedAt0 due.answer }
    ensures lent { let l = lent_live count points ids donor_blood patient_blood donor_age patient_age
        donor_antigens patient_antigens patient_antibodies compatibilities weights suitable in
        let due = withdrawing id l.entry in
        l.exit ≡ due.lent }
    ensures rightly { let l = lent_live count points ids donor_blood patient_blood donor_age patient_age
        donor_antigens patient_antigens patient_antibodies compatibilities weights suitable in
        let due = withdrawing id l.entry in
        WithdrawsRightly id l.entry due }
{
    withdrawing::withdraw(
        count,
        points,
        ids,
        donor_blood,
        patient_blood,
        donor_age,
        patient_age,
        donor_antigens,
        patient_antigens,
        patient_antibodies,
        compatibilities,
        weights,
        suitable,
        id,
    )
    .into()
}

// Plans the pool of n pairs whose tables are m and w, with the floor and the shuffle.
#[unsafe(no_mangle)]
pub extern "C" fn vadivuzhen_plan(
    n: usize,
    floor: u32,
    m: &[u8],
    w: &[u16],
    shuffle: &[u16],
    weights: &mut [u32],
    choices: &mut [u32],
    donors: &mut [u16],
    recipients: &mut [u16],
    records: &mut [Cycle],
) -> PlanAnswer
    ensures numbers { let a = request n floor m.now w.now shuffle.now in
        let t = lent_plan weights choices donors recipients records in
        let due = planning a t.entry in
        (result ≡ plan_numbers due.answer) × NumberedAt0 due.answer }
    ensures lent { let a = request n floor m.now w.now shuffle.now in
        let t = lent_plan weights choices donors recipients records in
        let due = planning a t.entry in
        t.exit ≡ due.lent }
    ensures rightly { let a = request n floor m.now w.now shuffle.now in
        let t = lent_plan weights choices donors recipients records in
        let due = planning a t.entry in
        PlansRightly a t.entry due }
{
    planner::plan(
        n, floor, m, w, shuffle, weights, choices, donors, recipients, records,
    )
    .into()
}

// Prints a plan of n pairs into the lent buffer.
#[unsafe(no_mangle)]
pub extern "C" fn vadivuzhen_print_plan(
    n: usize,
    cycles: usize,
    weight: u64,
    ids: &[u32],
    donors: &[u16],
    recipients: &[u16],
    comparisons: u64,
    products: u64,
    rounds: u64,
    out: &mut [u8],
) -> PrintAnswer
    ensures numbers { let p = printed_plan n cycles weight ids.now donors.now recipients.now comparisons products rounds in
        let due = printing_plan p out.old in
        (result ≡ print_numbers due.answer) × NumberedAt0 due.answer }
    ensures lent { let p = printed_plan n cycles weight ids.now donors.now recipients.now comparisons products rounds in
        let due = printing_plan p out.old in
        out.new ≡ due.lent }
    ensures rightly { let p = printed_plan n cycles weight ids.now donors.now recipients.now comparisons products rounds in
        let due = printing_plan p out.old in
        PrintsPlan p out.old due }
{
    printout::print_plan(
        n,
        cycles,
        weight,
        ids,
        donors,
        recipients,
        comparisons,
        products,
        rounds,
        out,
    )
    .into()
}

// Prints `REFUSED`, any number and a place into the lent buffer.
#[unsafe(no_mangle)]
pub extern "C" fn vadivuzhen_print_refusal(number: u32, place: usize, out: &mut [u8]) -> PrintAnswer
    ensures numbers { let due = printing_refusal number place out.old in
        (result ≡ print_numbers due.answer) × NumberedAt0 due.answer }
    ensures lent { let due = printing_refusal number place out.old in
        out.new ≡ due.lent }
    ensures rightly { let due = printing_refusal number place out.old in
        PrintsRefused number place out.old due }
{
    printout::print_refused(number, place, out).into()
}
