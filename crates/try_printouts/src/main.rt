// Printouts to try: document 01's example, nobody, the least and the greatest numbers, numbers that are no pair's, and every reason for 9. What
// it prints is held to the file 'stdout'. Every lent byte holds '#' before a call; the text is shown with eight bytes past it.
#![tactic(auto)]

ghost use Rattle.std.specs.Prelude.{◌≤◌};

use refusal::Refusal;
use silent::Silent;
use std::io;

// Prints the answer, the text and eight bytes more, or as many as there are.
fn show(
    rt: &impl Print,
    name: &str,
    answer: Result<usize, Refusal>,
    out: &[u8; 300],
) -> io::Result<()> {
    let length = match answer {
        Ok(n) => {
            println!(rt; "== {name}: {n} bytes")?;
            n
        }
        Err(why) => {
            println!(rt; "== {name}: refused {}", why.number())?;
            0
        }
    };
    rt.write_all(&out[..length.saturating_add(8).min(300)])?;
    println!(rt)
}

// A plan to print.
#[derive(Clone, Copy)]
struct Plan<'a> {
    n: usize,
    cycles: usize,
    weight: u64,
    ids: &'a [u32],
    donors: &'a [u16],
    recipients: &'a [u16],
    comparisons: u64,
    products: u64,
    rounds: u64,
}

impl Plan<'_> {
    // Prints it into the first `room` of 300 bytes.
    fn attempt(self, rt: &impl Print, name: &str, room: usize) -> io::Result<()>
        requires { room ≤ 300 }
    {
        let mut out = [b'#'; 300];
        let answer = printout::print_plan(
            self.n,
            self.cycles,
            self.weight,
            self.ids,
            self.donors,
            self.recipients,
            self.comparisons,
            self.products,
            self.rounds,
            &mut out[..room],
        );
        show(rt, name, answer, &out)
    }
}

// Prints a plan of one pair, that gives to itself, in which every number is x.
fn try_numbers(rt: &impl Print, name: &str, cycles: usize, x: u64, id: u32) -> io::Result<()> {
    let plan = Plan {
        n: 1,
        cycles,
        weight: x,
        ids: &[id],
        donors: &[0],
        recipients: &[0],
        comparisons: x,
        products: x,
        rounds: x,
    };
    plan.attempt(rt, name, 300)
}

// Prints a refusal into the first `room` of 300 bytes.
fn try_refusal(
    rt: &impl Print,
    name: &str,
    why: Refusal,
    place: usize,
    room: usize,
) -> io::Result<()>
    requires { room ≤ 300 }
{
    let mut out = [b'#'; 300];
    let answer = printout::print_refusal(why, place, &mut out[..room]);
    show(rt, name, answer, &out)
}

fn try_plans(rt: &impl Print) -> io::Result<()> {
    let nobody = [2, 2];
    let example = Plan {
        n: 2,
        cycles: 1,
        weight: 2900,
        ids: &[11, 12],
        donors: &[1, 0],
        recipients: &[1, 0],
        comparisons: 1,
        products: 6,
        rounds: 1,
    };
    let only_a_donor = Plan {
        recipients: &nobody,
        ..example
    };
    example.attempt(rt, "the example", 300)?;
    let alone = Plan {
        donors: &nobody,
        ..only_a_donor
    };
    alone.attempt(rt, "nobody", 300)?;
    let no_pairs = Plan {
        donors: &[3, 65535],
        ..only_a_donor
    };
    no_pairs.attempt(rt, "numbers that are no pair's", 300)?;
    only_a_donor.attempt(rt, "only a donor", 300)?;
    let empty = Plan { n: 0, ..example };
    empty.attempt(rt, "no pairs", 300)?;
    Plan { n: 1, ..example }.attempt(rt, "one pair of two", 300)?;
    example.attempt(rt, "a buffer just long enough", 45)?;
    example.attempt(rt, "a buffer one byte too short", 44)?;
    empty.attempt(rt, "no buffer", 0)?;
    let few_ids = Plan {
        ids: &[11],
        ..example
    };
    few_ids.attempt(rt, "ids too few", 300)?;
    let few_donors = Plan {
        donors: &[0],
        ..example
    };
    few_donors.attempt(rt, "donors too few", 300)?;
    let few_recipients = Plan {
        recipients: &[0],
        ..example
    };
    few_recipients.attempt(rt, "recipients too few", 300)?;
    let most = Plan {
        n: usize::MAX,
        ..example
    };
    most.attempt(rt, "as many pairs as can be said", 300)
}

// The example as a program prints it: into a buffer that always suffices for two pairs, so that there is no refusal, and the text alone.
fn print_example(rt: &impl Print) -> io::Result<()> {
    let mut out = [b'#'; 204];
    let n = printout::print_plan(
        2,
        1,
        2900,
        &[11, 12],
        &[1, 0],
        &[1, 0],
        1,
        6,
        1,
        &mut out,
    ).unwrap();
    rt.write_all(&out[..n])
}

fn run(rt: &impl Print) -> io::Result<()> {
    print_example(rt)?;
    try_plans(rt)?;
    try_numbers(rt, "every number 0", 0, 0, 0)?;
    try_numbers(rt, "every number 9", 9, 9, 9)?;
    try_numbers(rt, "every number 10", 10, 10, 10)?;
    try_numbers(rt, "every number 100", 100, 100, 100)?;
    try_numbers(rt, "the greatest numbers", usize::MAX, u64::MAX, u32::MAX)?;
    try_refusal(rt, "the first refusal", Refusal::CutOff, 0, 300)?;
    try_refusal(rt, "the last refusal", Refusal::WeightlessEdge, 7425, 300)?;
    try_refusal(
        rt,
        "the greatest place",
        Refusal::RepeatedId,
        usize::MAX,
        40,
    )?;
    try_refusal(
        rt,
        "a refusal, the buffer just long enough",
        Refusal::LeftOver,
        84,
        13,
    )?;
    try_refusal(
        rt,
        "a refusal, the buffer one byte too short",
        Refusal::LeftOver,
        84,
        12,
    )
}

fn main() {
    // Where output is lost, it is lost silently.
    let _ = run(&Silent);
}
