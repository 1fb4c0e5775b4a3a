// Pools to try, and the plans that planning makes of them: document 01's k1 to k12, pools with floors, weightless edges, pools with rivals that weigh as much as
// W-208's bound allows, one of 36 and one of 200. What it prints is held to the file 'stdout'. Every lent entry holds 99 before a call, and the first one past the filled part is printed too.
#![tactic(auto)]

ghost use Rattle.std.specs.Prelude.{◌≡◌, ◌≤◌, ◌<◌, length};

use cycle::Cycle;
use planner::Planned;
use refusal::Refusal;
use silent::Silent;
use std::{array, fmt, io};

// Entries of a table, each after a blank.
#[derive(Clone, Copy)]
struct Row<'a, T>(&'a [T]);

impl<T: fmt::Display> fmt::Display for Row<'_, T> {
    fn fmt<W: fmt::Write>(&self, f: &mut fmt::Formatter<W>) -> fmt::Result {
        for entry in self.0 {
            write!(f, " {entry}")?;
        }
        Ok(())
    }
}

// The three numbers of each record, and the first number of the record past them.
#[derive(Clone, Copy)]
struct Records<'a> {
    records: &'a [Cycle],
    past: Cycle,
}

impl fmt::Display for Records<'_> {
    fn fmt<W: fmt::Write>(&self, f: &mut fmt::Formatter<W>) -> fmt::Result {
        for record in self.records {
            write!(f, " {} {} {}", record.first, record.second, record.third)?;
        }
        write!(f, " {}", self.past.first)
    }
}

// What planning answered.
#[derive(Clone, Copy)]
struct Answer(Result<Planned, Refusal>);

impl fmt::Display for Answer {
    fn fmt<W: fmt::Write>(&self, f: &mut fmt::Formatter<W>) -> fmt::Result {
        match self.0 {
            Ok(plan) => {
                let tally = plan.tally;
                write!(f, "weight {} cycles {}", plan.weight, plan.cycles)?;
                write!(
                    f,
                    " tally {} {} {}",
                    tally.comparisons, tally.products, tally.rounds
                )
            }
            Err(why) => write!(f, "refused {}", why.number()),
        }
    }
}

// A record whose numbers are 99.
const UNTOUCHED: Cycle = Cycle {
    first: 99,
    second: 99,
    third: 99,
};

// What planning is asked.
#[derive(Clone, Copy)]
struct Pool<'a> {
    n: usize,
    floor: u32,
    m: &'a [u8],
    w: &'a [u16],
    shuffle: &'a [u16],
}

impl Pool<'_> {
    // Plans it in lent tables.
    fn plan(
        self,
        weights: &mut [u32],
        choices: &mut [u32],
        donors: &mut [u16],
        recipients: &mut [u16],
        records: &mut [Cycle],
    ) -> Answer {
        Answer(planner::plan(
            self.n,
            self.floor,
            self.m,
            self.w,
            self.shuffle,
            weights,
            choices,
            donors,
            recipients,
            records,
        ))
    }

    // Plans a pool of at most 10 pairs and so many subsets, and prints the answer and what stands then in each table, with one entry past what is due.
    fn attempt(self, rt: &impl Print, name: &str, subsets: usize) -> io::Result<()>
        requires { (self.n ≤ 10) × (subsets ≤ 165) }
    {
        let mut weights = [99; 166];
        let mut choices = [99; 6];
        let mut donors = [99; 11];
        let mut recipients = [99; 11];
        let mut records = [UNTOUCHED; 101];
        let answer = self.plan(
            &mut weights,
            &mut choices,
            &mut donors,
            &mut recipients,
            &mut records,
        );
        let rounds = self.n / 2;
        let records = Records {
            records: &records[..rounds],
            past: records[rounds],
        };
        println!(rt; "{name}: {answer}")?;
        println!(rt; "  weights{}", Row(&weights[..=subsets]))?;
        println!(rt; "  choices{}", Row(&choices[..=rounds]))?;
        println!(rt; "  donors{}", Row(&donors[..=self.n]))?;
        println!(rt; "  recipients{}", Row(&recipients[..=self.n]))?;
        println!(rt; "  records{records}")
    }
}

// Plans a pool of two pairs, each table in the order (0, 0), (0, 1), (1, 0), (1, 1).
fn try_two(
    rt: &impl Print,
    name: &str,
    floor: u32,
    m: [u8; 4],
    w: [u16; 4],
    shuffle: [u16; 2],
) -> io::Result<()> {
    let pool = Pool {
        n: 2,
        floor,
        m: &m,
        w: &w,
        shuffle: &shuffle,
    };
    pool.attempt(rt, name, 1)
}

fn try_small(rt: &impl Print) -> io::Result<()> {
    let none = Pool {
        n: 0,
        floor: 0,
        m: &[0],
        w: &[0],
        shuffle: &[0],
    };
    none.attempt(rt, "k1", 0)?;
    Pool { n: 1, ..none }.attempt(rt, "k2", 0)?;
    try_two(rt, "k3", 0, [0, 1, 1, 0], [0, 5, 7, 0], [0, 1])?;
    try_two(rt, "k4", 0, [0, 1, 0, 0], [0, 5, 0, 0], [0, 1])?;
    try_two(rt, "k5", 0, [0, 1, 1, 0], [0, 0, 0, 0], [0, 1])
}

fn try_triples(rt: &impl Print) -> io::Result<()> {
    let k6 = Pool {
        n: 3,
        floor: 0,
        m: &[0, 1, 1, 1, 0, 1, 1, 1, 0],
        w: &[0, 4, 4, 4, 0, 4, 4, 4, 0],
        shuffle: &[0, 1, 2],
    };
    k6.attempt(rt, "k6", 4)?;
    let reverse_heavier = [0, 1, 2, 2, 0, 1, 1, 2, 0];
    let k7 = Pool {
        w: &reverse_heavier,
        ..k6
    };
    k7.attempt(rt, "k7", 4)?;
    let k10 = Pool {
        m: &[0, 1, 1, 1, 0, 0, 1, 0, 0],
        w: &[0, 5, 5, 5, 0, 0, 5, 0, 0],
        ..k6
    };
    k10.attempt(rt, "k10", 4)?;
    let other = [2, 0, 1];
    let turned = Pool {
        shuffle: &other,
        ..k10
    };
    turned.attempt(rt, "k10 with shuffle 2 0 1", 4)
}

// 0 to 1 to 2 to 0 at 2; 0 and 3, 1 and 4, 2 and 5 both ways at 3.
fn try_k8(rt: &impl Print, name: &str, floor: u32) -> io::Result<()> {
    let w: [u16; 36] = array::from_fn(|k| match (k / 6, k % 6) {
        (0, 1) | (1, 2) | (2, 0) => 2,
        (0, 3) | (3, 0) | (1, 4) | (4, 1) | (2, 5) | (5, 2) => 3,
        _ => 0,
    });
    let m = w.map(|weight| u8::from(weight > 0));
    let pool = Pool {
        n: 6,
        floor,
        m: &m,
        w: &w,
        shuffle: &[0, 1, 2, 3, 4, 5],
    };
    pool.attempt(rt, name, 35)
}

fn try_k9(rt: &impl Print) -> io::Result<()> {
    let pool = Pool {
        n: 4,
        floor: 0,
        m: &[0, 1, 0, 0, 1, 0, 0, 0, 0, 0, 0, 1, 0, 0, 1, 0],
        w: &[0, 3, 0, 0, 3, 0, 0, 0, 0, 0, 0, 3, 0, 0, 3, 0],
        shuffle: &[0, 1, 2, 3],
    };
    pool.attempt(rt, "k9", 10)
}

fn try_refusals(rt: &impl Print) -> io::Result<()> {
    try_two(rt, "k11", 0, [0, 1, 1, 0], [0, 5, 7, 0], [0, 0])?;
    try_two(rt, "k12", 0, [0, 2, 1, 0], [0, 5, 7, 0], [0, 1])?;
    try_two(rt, "M(0, 0) is 1", 0, [1, 1, 1, 0], [0, 5, 7, 0], [0, 1])?;
    try_two(rt, "8 and 10", 0, [1, 2, 1, 0], [0, 5, 7, 0], [1, 1])?;
    let pool = Pool {
        n: 3,
        floor: 0,
        m: &[2; 8],
        w: &[0; 9],
        shuffle: &[0; 3],
    };
    pool.attempt(rt, "9, 8 and 10", 4)
}

// Two swaps, of weights 6 and 8; then one of weight 10, and one of weight 2 that shares a pair with it.
fn try_swaps(rt: &impl Print) -> io::Result<()> {
    let apart = Pool {
        n: 4,
        floor: 5,
        m: &[0, 1, 0, 0, 1, 0, 0, 0, 0, 0, 0, 1, 0, 0, 1, 0],
        w: &[0, 3, 0, 0, 3, 0, 0, 0, 0, 0, 0, 4, 0, 0, 4, 0],
        shuffle: &[0, 1, 2, 3],
    };
    apart.attempt(rt, "6 and 8, floor 5", 10)?;
    Pool { floor: 6, ..apart }.attempt(rt, "6 and 8, floor 6", 10)?;
    Pool { floor: 8, ..apart }.attempt(rt, "6 and 8, floor 8", 10)?;
    let sharing = Pool {
        m: &[0, 1, 1, 0, 1, 0, 0, 0, 1, 0, 0, 0, 0, 0, 0, 0],
        w: &[0, 5, 1, 0, 5, 0, 0, 0, 1, 0, 0, 0, 0, 0, 0, 0],
        ..apart
    };
    sharing.attempt(rt, "10 and 2, floor 5", 10)
}

// The greatest weight that a cycle can have, 196,605.
fn try_greatest(rt: &impl Print) -> io::Result<()> {
    let pool = Pool {
        n: 3,
        floor: 196604,
        m: &[0, 1, 0, 0, 0, 1, 1, 0, 0],
        w: &[0, 65535, 0, 0, 0, 65535, 65535, 0, 0],
        shuffle: &[0, 1, 2],
    };
    pool.attempt(rt, "196605, floor 196604", 4)?;
    let at = Pool {
        floor: 196605,
        ..pool
    };
    at.attempt(rt, "196605, floor 196605", 4)?;
    let above = Pool {
        floor: 200000,
        ..pool
    };
    above.attempt(rt, "196605, floor 200000", 4)
}

// A floor that is too high, alone and with other faults.
fn try_high(rt: &impl Print) -> io::Result<()> {
    try_two(
        rt,
        "floor 200001",
        200001,
        [0, 1, 1, 0],
        [0, 5, 7, 0],
        [0, 1],
    )?;
    let allowed = Pool {
        n: 2,
        floor: 200000,
        m: &[],
        w: &[],
        shuffle: &[],
    };
    allowed.attempt(rt, "9 and not 13", 1)?;
    let high = Pool {
        floor: 200001,
        ..allowed
    };
    high.attempt(rt, "13 and 9", 1)?;
    let many = Pool {
        n: 201,
        m: &[0],
        w: &[0],
        shuffle: &[0],
        ..high
    };
    let answer = many.plan(
        &mut [99],
        &mut [99],
        &mut [99],
        &mut [99],
        &mut [UNTOUCHED; 101],
    );
    println!(rt; "4 and 13: {answer}")
}

fn try_floors(rt: &impl Print) -> io::Result<()> {
    try_two(rt, "k3, floor 11", 11, [0, 1, 1, 0], [0, 5, 7, 0], [0, 1])?;
    try_two(rt, "k3, floor 12", 12, [0, 1, 1, 0], [0, 5, 7, 0], [0, 1])?;
    try_k8(rt, "k8, floor 5", 5)?;
    try_k8(rt, "k8, floor 6", 6)?;
    try_swaps(rt)?;
    try_greatest(rt)?;
    try_high(rt)
}

// Edges that weigh 0, beside other faults, and weights that are not looked at.
fn try_weightless(rt: &impl Print) -> io::Result<()> {
    let both = [0u8, 1, 1, 0];
    let nothing = [0u16; 4];
    try_two(
        rt,
        "a weightless edge in no cycle",
        0,
        [0, 1, 0, 0],
        nothing,
        [0, 1],
    )?;
    try_two(rt, "weightless, shuffle 0 0", 0, both, nothing, [0, 0])?;
    try_two(
        rt,
        "weightless, floor 200001",
        200001,
        both,
        nothing,
        [0, 1],
    )?;
    try_two(
        rt,
        "weightless, an entry 2",
        0,
        [0, 1, 2, 0],
        [0, 0, 7, 0],
        [0, 1],
    )?;
    try_two(
        rt,
        "an own edge, weightless",
        0,
        [0, 1, 1, 1],
        [0, 5, 7, 0],
        [0, 1],
    )?;
    try_two(
        rt,
        "an edge of weight 1, floor 5",
        5,
        both,
        [0, 1, 1, 0],
        [0, 1],
    )?;
    try_two(rt, "own weights of 7", 0, both, [7, 5, 7, 7], [0, 1])
}

// Rivals that weigh the sum of each planned cycle's weight times its number of pairs: beside a two, and beside a triple and a two.
fn try_rivals(rt: &impl Print) -> io::Result<()> {
    let four = Pool {
        n: 4,
        floor: 0,
        m: &[0, 1, 1, 0, 1, 0, 0, 1, 1, 0, 0, 0, 0, 1, 0, 0],
        w: &[0, 5, 5, 0, 5, 0, 0, 5, 5, 0, 0, 0, 0, 5, 0, 0],
        // longer than need be
        shuffle: &[0, 1, 2, 3, 4, 5, 6, 7, 8, 9],
    };
    four.attempt(rt, "10 against 20", 10)?;
    // 0 to 1 to 2 to 0 at 4; 3 and 4, 3 and 8, 4 and 9 both ways at 4; 0 and 5, 1 and 6, 2 and 7 both ways at 6
    let w: [u16; 100] = array::from_fn(|k| match (k / 10, k % 10) {
        (0, 1) | (1, 2) | (2, 0) => 4,
        (3, 4) | (4, 3) | (3, 8) | (8, 3) | (4, 9) | (9, 4) => 4,
        (0, 5) | (5, 0) | (1, 6) | (6, 1) | (2, 7) | (7, 2) => 6,
        _ => 0,
    });
    let m = w.map(|weight| u8::from(weight > 0));
    let ten = Pool {
        n: 10,
        floor: 0,
        m: &m,
        w: &w,
        shuffle: &[0, 1, 2, 3, 4, 5, 6, 7, 8, 9],
    };
    ten.attempt(rt, "20 against 52", 165)
}

// A pool that a formula gives: an edge where (7i + 11j) mod 5 is below 2, of weight 1 + (31i + 17j) mod 997; place p holds pair 7p mod n.
fn fill(n: usize, m: &mut [u8], w: &mut [u16], shuffle: &mut [u16])
    requires { (0 < n) × (length m.old ≤ 40000) × (length w.old ≡ length m.old) × (length shuffle.old ≤ 200) }
{
    for k in 0..m.len() {
        let i = k / n;
        let j = k % n;
        m[k] = u8::from(i != j && (7 * i + 11 * j) % 5 < 2);
        w[k] = (1 + (31 * i + 17 * j) % 997) as u16;
    }
    for p in 0..shuffle.len() {
        shuffle[p] = (7 * p % n) as u16;
    }
}

fn try_36(rt: &impl Print, name: &str, floor: u32) -> io::Result<()> {
    let mut m = [0; 1296];
    let mut w = [0; 1296];
    let mut shuffle = [0; 36];
    fill(36, &mut m, &mut w, &mut shuffle);
    let pool = Pool {
        n: 36,
        floor,
        m: &m,
        w: &w,
        shuffle: &shuffle,
    };
    let mut weights = [99; 7771];
    let mut choices = [99; 19];
    let mut donors = [99; 37];
    let mut recipients = [99; 37];
    let mut records = [UNTOUCHED; 101];
    let answer = pool.plan(
        &mut weights,
        &mut choices,
        &mut donors,
        &mut recipients,
        &mut records,
    );
    let records = Records {
        records: &records[..18],
        past: records[18],
    };
    println!(rt; "{name}: {answer}")?;
    println!(rt; "  choices{}", Row(&choices))?;
    println!(rt; "  donors{}", Row(&donors))?;
    println!(rt; "  recipients{}", Row(&recipients))?;
    println!(rt; "  records{records}")
}

// With this table of weights.
fn try_200_with(rt: &impl Print, weights: &mut [u32]) -> io::Result<()> {
    let mut m = [0; 40000];
    let mut w = [0; 40000];
    let mut shuffle = [0; 200];
    fill(200, &mut m, &mut w, &mut shuffle);
    let pool = Pool {
        n: 200,
        floor: 0,
        m: &m,
        w: &w,
        shuffle: &shuffle,
    };
    let mut choices = [99; 101];
    let mut donors = [99; 201];
    let mut recipients = [99; 201];
    let mut records = [UNTOUCHED; 101];
    let answer = pool.plan(
        weights,
        &mut choices,
        &mut donors,
        &mut recipients,
        &mut records,
    );
    println!(rt; "200 pairs: {answer}")?;
    println!(rt; "  choices{}", Row(&choices))?;
    println!(rt; "  recipients{}", Row(&recipients))
}

fn try_200(rt: &impl Print) -> io::Result<()> {
    let mut weights = [99; 1333301];
    try_200_with(rt, &mut weights)
}

fn run(rt: &impl Print) -> io::Result<()> {
    try_small(rt)?;
    try_triples(rt)?;
    try_k8(rt, "k8", 0)?;
    try_k9(rt)?;
    try_refusals(rt)?;
    try_floors(rt)?;
    try_weightless(rt)?;
    try_rivals(rt)?;
    try_36(rt, "36 pairs", 0)?;
    try_36(rt, "36 pairs, floor 2500", 2500)?;
    try_200(rt)
}

fn main() {
    // Where output is lost, it is lost silently.
    let _ = run(&Silent);
}
