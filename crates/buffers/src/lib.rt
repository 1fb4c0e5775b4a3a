// Planning with "buffers for 40 pairs": who wants a plan of at most 40 pairs and its partners lends two tables, and the rest is lent here.
#![tactic(auto)]

ghost use Rattle.std.specs.Prelude.{◌≡◌, ◌≤◌, length};
ghost use Rattle.exchange.specs.Input.{no_floor, request};
ghost use Rattle.exchange.specs.Planning.{lent};
ghost use Rattle.planner.specs.Answers.{plan_in, answer_of};
ghost use Rattle.buffers.specs.Preconditions.{FaultlessTables, no_records, Recorded, Partnered};

use cycle::Cycle;
use planner::Planned;
use refusal::Refusal;

// "Floor 0 [..], and `plan` uses it."
const FLOOR: u32 = 0;

// A table of records for 40 pairs.
fn no_records() -> [Cycle; 20]
    ensures { result ≡ no_records }
{
    [Cycle {
        first: 0,
        second: 0,
        third: 0,
    }; 20]
}

// Plans, and lends a table for the records, which are not printed.
fn plan_recorded(
    n: usize,
    floor: u32,
    m: &[u8],
    w: &[u16],
    shuffle: &[u16],
    weights: &mut [u32],
    choices: &mut [u32],
    donors: &mut [u16],
    recipients: &mut [u16],
) -> Result<Planned, Refusal>
    ensures { let a = request n floor m.now w.now shuffle.now in
        let old = lent weights.old choices.old donors.old recipients.old in
        let new = lent weights.new choices.new donors.new recipients.new in
        Recorded a old new (answer_of result) }
{
    let mut records = no_records();
    planner::plan(
        n,
        floor,
        m,
        w,
        shuffle,
        weights,
        choices,
        donors,
        recipients,
        &mut records,
    )
}

// The plan of n pairs with these tables, which planning does not refuse, and its partners.
pub fn plan_tables(
    n: usize,
    m: &[u8],
    w: &[u16],
    shuffle: &[u16],
    donors: &mut [u16],
    recipients: &mut [u16],
) -> Planned
    requires { FaultlessTables (request n no_floor m.now w.now shuffle.now) × (n ≤ length donors.old) × (n ≤ length recipients.old) }
    ensures { let a = request n no_floor m.now w.now shuffle.now in
        Partnered a donors.old recipients.old (plan_in result) donors.new recipients.new }
{
    // 40 pairs have (40³ − 40) / 6 subsets and 20 rounds.
    let mut weights = [0u32; 10660];
    let mut choices = [0u32; 20];
    plan_recorded(
        n,
        FLOOR,
        m,
        w,
        shuffle,
        &mut weights,
        &mut choices,
        donors,
        recipients,
    )
    .unwrap()
}
