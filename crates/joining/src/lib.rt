// Two sheets made one, in a lent buffer (document 02, W-201 and W-205): the late registrations of an addendum join a sheet. Everything is checked before
// anything is written, so that a refusal leaves the buffer as it was.
#![tactic(auto)]

ghost use Rattle.std.specs.Prelude.{◌≡◌};
ghost use Rattle.refusal.specs.Answer.{outcome};
ghost use Rattle.refusal.specs.Number.{fault_at, found_fault};
ghost use Rattle.pool.specs.Faultless.{FaultlessSheet};
ghost use Rattle.pool.specs.Joining.{differ_fault, id_in_both, both_fault, join_fault, joining};
ghost use Rattle.pool.specs.Joinable.{JoinsRightly};
ghost use Rattle.joining.specs.Answers.{answer_of};

use refusal::{At, Refusal, Refused};

// 15: versions or points that differ.
fn differ(first: &[u8], second: &[u8]) -> Result<(), Refusal>
    requires { FaultlessSheet first.now × FaultlessSheet second.now }
    ensures { fault_at 0 result ≡ differ_fault first.now second.now }
{
    let version = framing::version_in(first);
    if version != framing::version_in(second) {
        return Err(Refusal::DifferentPoints);
    }
    let from = layout::POINTS_PLACE + layout::START_LENGTH;
    let count = layout::point_count(version);
    for k in 0..count {
        if framing::number(first, from + 2 * k, 2) != framing::number(second, from + 2 * k, 2) {
            return Err(Refusal::DifferentPoints);
        }
    }
    Ok(())
}

// Is an id in both sheets? The first's are noted, and each of the second's is looked for among them.
fn shared(first: &[u8], second: &[u8]) -> bool
    requires { FaultlessSheet first.now × FaultlessSheet second.now }
    ensures { result ≡ id_in_both first.now second.now }
{
    let n = framing::pairs_in(first);
    let m = framing::pairs_in(second);
    let mut ids = [0u32; 200];
    columns::fill_column(
        first,
        framing::version_in(first),
        n,
        layout::ID_AT,
        &mut ids,
    );
    let version = framing::version_in(second);
    for j in 0..m {
        let id = framing::number(second, layout::pair_place(version, j) + layout::ID_AT, 4) as u32;
        if checks::among(&ids, n, id) {
            return true;
        }
    }
    false
}

// Of two sheets with no fault of their own, for a buffer of `space` bytes: 15, 11, 12, 9.
fn both(first: &[u8], second: &[u8], space: usize) -> Result<(), Refusal>
    requires { FaultlessSheet first.now × FaultlessSheet second.now }
    ensures { fault_at 0 result ≡ both_fault first.now second.now space }
{
    differ(first, second)?;
    if shared(first, second) {
        return Err(Refusal::SharedId);
    }
    let n = framing::pairs_in(first);
    let m = framing::pairs_in(second);
    if n + m > 200 {
        return Err(Refusal::TooManyTogether);
    }
    if space < layout::sheet_length(framing::version_in(first), n + m) {
        return Err(Refusal::TooShort);
    }
    Ok(())
}

// The first fault: the first sheet's own, the second's own, those of both.
fn judge(first: &[u8], second: &[u8], space: usize) -> Result<(), Refused>
    ensures { found_fault result ≡ join_fault first.now second.now space }
{
    scan::check(first)?;
    scan::check(second)?;
    both(first, second, space).at(0)
}

// Joins the second sheet to the first, as one sheet in the lent buffer, and gives its length.
pub fn join(first: &[u8], second: &[u8], out: &mut [u8]) -> Result<usize, Refused>
    ensures equals { let a = first.now in
        let b = second.now in
        outcome (answer_of result) out.new ≡ joining a b out.old }
    ensures rightly { let a = first.now in
        let b = second.now in
        JoinsRightly a b out.old (outcome (answer_of result) out.new) }
{
    judge(first, second, out.len())?;
    Ok(appending::put_joined(out, first, second))
}
