// The planning call.
#![tactic(auto)]

ghost use Rattle.std.specs.Prelude.{◌≡◌, MatchResult};
ghost use Rattle.refusal.specs.Answer.{outcome};
ghost use Rattle.greedy.specs.Rounds.{left};
ghost use Rattle.exchange.specs.Input.{input_of, request};
ghost use Rattle.exchange.specs.Planning.{lent, left_by};
ghost use Rattle.exchange.specs.Lent.{lent_plan};
ghost use Rattle.exchange.specs.Promises.{PlansRightly};
ghost use Rattle.gates.specs.Counting.{counted};
ghost use Rattle.planner.specs.Answers.{answer_of};
ghost use Rattle.planner.specs.Preconditions.{Stepping, Checked};
ghost use Rattle.planner.specs.ByValue.{Makes, PlansByValue, RefusesByValue};

use cycle::Cycle;
use gates::{Counts, Tally};
use refusal::Refusal;

// "The result carries the plan's weight, number of cycles and tally."
#[derive(Clone, Copy)]
pub struct Planned {
    pub weight: u64,
    pub cycles: usize,
    pub tally: Counts,
}

// A plan, with its records by value: the first of them, as many as it has cycles.
#[derive(Clone, Copy)]
struct Work {
    plan: Planned,
    records: [Cycle; 100],
}

// Evaluation, then all rounds; one tally, which begins at 0, is lent to both.
fn steps(
    n: usize,
    floor: u32,
    m: &[u8],
    w: &[u16],
    s: &[u16],
    weights: &mut [u32],
    choices: &mut [u32],
) -> Tally
    requires { Stepping (request n floor m.now w.now s.now) weights.old choices.old }
    ensures { let a = request n floor m.now w.now s.now in
        left weights.new choices.new (counted result) ≡ left_by (input_of a) }
{
    let mut tally = gates::nothing_done();
    evaluation::evaluate(n, m, w, s, weights, &mut tally);
    rounds::all_rounds(n, floor, weights, choices, &mut tally);
    tally
}

// The plan, from checked input.
fn make(
    n: usize,
    floor: u32,
    m: &[u8],
    w: &[u16],
    s: &[u16],
    weights: &mut [u32],
    choices: &mut [u32],
    donors: &mut [u16],
    recipients: &mut [u16],
) -> Work
    requires { Checked (request n floor m.now w.now s.now) weights.old choices.old donors.old recipients.old }
    ensures { let a = request n floor m.now w.now s.now in
        let old = lent weights.old choices.old donors.old recipients.old in
        let new = lent weights.new choices.new donors.new recipients.new in
        Makes a old new result }
{
    let all = cursor::count(n);
    let rounds = n / 2;
    let tally = steps(
        n,
        floor,
        m,
        w,
        s,
        &mut weights[..all],
        &mut choices[..rounds],
    );
    let resolved = resolution::resolve(
        n,
        m,
        w,
        s,
        &choices[..rounds],
        &mut donors[..n],
        &mut recipients[..n],
    );
    let plan = Planned {
        weight: resolved.weight as u64,
        cycles: resolved.cycles,
        tally: gates::counts_of(tally),
    };
    let records = resolved.records;
    Work { plan, records }
}

// Plans the pool of n pairs whose tables are m and w, with the floor and the shuffle, for a caller that has room for so many records.
fn plan_by_value(
    n: usize,
    floor: u32,
    m: &[u8],
    w: &[u16],
    shuffle: &[u16],
    weights: &mut [u32],
    choices: &mut [u32],
    donors: &mut [u16],
    recipients: &mut [u16],
    room: usize,
) -> Result<Work, Refusal>
    ensures { let a = request n floor m.now w.now shuffle.now in
        let old = lent weights.old choices.old donors.old recipients.old in
        let new = lent weights.new choices.new donors.new recipients.new in
        MatchResult result (PlansByValue a old new room) (RefusesByValue a old new room) }
{
    validation::judge(
        n,
        floor,
        m,
        w,
        shuffle,
        weights.len(),
        choices.len(),
        donors.len(),
        recipients.len(),
        room,
    )?;
    Ok(make(
        n, floor, m, w, shuffle, weights, choices, donors, recipients,
    ))
}

// Plans the pool of n pairs whose tables are m and w, with the floor and the shuffle; "the chosen cycles stand as records in a table lent by the
// caller".
pub fn plan(
    n: usize,
    floor: u32,
    m: &[u8],
    w: &[u16],
    shuffle: &[u16],
    weights: &mut [u32],
    choices: &mut [u32],
    donors: &mut [u16],
    recipients: &mut [u16],
    records: &mut [Cycle],
) -> Result<Planned, Refusal>
    ensures { let a = request n floor m.now w.now shuffle.now in
        let t = lent_plan weights choices donors recipients records in
        PlansRightly a t.entry (outcome (answer_of result) t.exit) }
{
    let room = records.len();
    let work = plan_by_value(
        n, floor, m, w, shuffle, weights, choices, donors, recipients, room,
    )?;
    records::write(records, work.records, work.plan.cycles);
    Ok(work.plan)
}
