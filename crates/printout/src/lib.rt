// A plan, or a refusal, printed into a lent buffer (document 01, 'Writer and printout'). A text's length is known before any of it is
// written, so that a refusal leaves the buffer as it was.
#![tactic(auto)]

ghost use Rattle.std.specs.Prelude.{◌≡◌, ◌≤◌, length};
ghost use Rattle.refusal.specs.Answer.{outcome};
ghost use Rattle.refusal.specs.Number.{number_of, fault_at};
ghost use Rattle.text.specs.Put.{Put};
ghost use Rattle.partners.specs.Preconditions.{PlanTablesHold};
ghost use Rattle.printout.specs.Printed.{plan_text};
ghost use Rattle.printout.specs.Calls.{print_fault, printing_plan, printing_refusal};
ghost use Rattle.printout.specs.Answers.{answer_of};
ghost use Rattle.printout.specs.Lent.{printed_now, printed};
ghost use Rattle.printout.specs.Promises.{PrintsPlan, PrintsRefused, PrintsRefusal};

use refusal::Refusal;

// Puts a plan.
fn put_plan(
    out: &mut [u8],
    n: usize,
    cycles: usize,
    weight: u64,
    ids: &[u32],
    donors: &[u16],
    recipients: &[u16],
    comparisons: u64,
    products: u64,
    rounds: u64,
) -> usize
    requires plan_tables_hold { PlanTablesHold n ids.now donors.now recipients.now }
    requires p_in_bounds { let p = printed_now n cycles weight ids donors recipients comparisons products rounds in
        length (plan_text p) ≤ length out.old }
    ensures { let p = printed n cycles weight ids donors recipients comparisons products rounds in
        Put 0 (plan_text p) out.old out.new result }
{
    let head = [n as u64, cycles as u64, weight];
    let counts = [comparisons, products, rounds];
    let after_head = text::put_line(out, 0, b"PLAN", &head);
    let after_pairs = partners::put_pairs(out, after_head, n, ids, donors, recipients);
    text::put_line(out, after_pairs, b"COUNTS", &counts)
}

// 9 where a table is shorter than n, or where a buffer of `room` bytes is shorter than the text.
fn judge(
    room: usize,
    n: usize,
    cycles: usize,
    weight: u64,
    ids: &[u32],
    donors: &[u16],
    recipients: &[u16],
    comparisons: u64,
    products: u64,
    rounds: u64,
) -> Result<(), Refusal>
    ensures { let p = printed n cycles weight ids donors recipients comparisons products rounds in
        fault_at 0 result ≡ print_fault room p }
{
    if ids.len() < n {
        return Err(Refusal::TooShort);
    }
    if donors.len() < n {
        return Err(Refusal::TooShort);
    }
    if recipients.len() < n {
        return Err(Refusal::TooShort);
    }
    let head = [n as u64, cycles as u64, weight];
    let counts = [comparisons, products, rounds];
    let used = text::line_length(b"PLAN", &head) + text::line_length(b"COUNTS", &counts);
    if partners::pairs_fit(room, used, n, ids, donors, recipients) {
        Ok(())
    } else {
        Err(Refusal::TooShort)
    }
}

// Prints a plan of n pairs into the lent buffer: its numbers, a line for each pair, and its counts. A donor or recipient that is no pair's
// number is printed as none. The answer is the text's length.
pub fn print_plan(
    n: usize,
    cycles: usize,
    weight: u64,
    ids: &[u32],
    donors: &[u16],
    recipients: &[u16],
    comparisons: u64,
    products: u64,
    rounds: u64,
    out: &mut [u8],
) -> Result<usize, Refusal>
    ensures equals { let p = printed n cycles weight ids donors recipients comparisons products rounds in
        outcome (answer_of result) out.new ≡ printing_plan p out.old }
    ensures rightly { let p = printed n cycles weight ids donors recipients comparisons products rounds in
        PrintsPlan p out.old (outcome (answer_of result) out.new) }
{
    judge(
        out.len(),
        n,
        cycles,
        weight,
        ids,
        donors,
        recipients,
        comparisons,
        products,
        rounds,
    )?;
    Ok(put_plan(
        out,
        n,
        cycles,
        weight,
        ids,
        donors,
        recipients,
        comparisons,
        products,
        rounds,
    ))
}

// Prints `REFUSED`, any number and a place into the lent buffer.
pub fn print_refused(number: u32, place: usize, out: &mut [u8]) -> Result<usize, Refusal>
    ensures equals { outcome (answer_of result) out.new ≡ printing_refusal number place out.old }
    ensures rightly { PrintsRefused number place out.old (outcome (answer_of result) out.new) }
{
    let numbers = [number as u64, place as u64];
    if out.len() < text::line_length(b"REFUSED", &numbers) {
        return Err(Refusal::TooShort);
    }
    Ok(text::put_line(out, 0, b"REFUSED", &numbers))
}

// Prints a refusal and its place into the lent buffer.
pub fn print_refusal(why: Refusal, place: usize, out: &mut [u8]) -> Result<usize, Refusal>
    ensures equals { outcome (answer_of result) out.new ≡ printing_refusal (number_of why) place out.old }
    ensures rightly { PrintsRefusal (number_of why) place out.old (outcome (answer_of result) out.new) }
{
    print_refused(why.number() as u32, place, out)
}
