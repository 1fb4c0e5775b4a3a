// The lines of a plan's pairs (document 01, 'Writer and printout'): each pair's id and those of its partners, put into a lent buffer, and their
// lengths. Like every `put` of `text`, these give the place after what they put.
#![tactic(auto)]

ghost use Rattle.std.specs.Prelude.{◌≡◌, ◌+◌, ◌≤◌, ◌<◌, length, leb};
ghost use Rattle.text.specs.Text.{following};
ghost use Rattle.text.specs.Put.{Put};
ghost use Rattle.partners.specs.Pairs.{partner, pair_line, pair_lines};
ghost use Rattle.partners.specs.Preconditions.{PlanTablesHold};

// Puts the id of the pair `who` after one space, or `-` where that is no pair's number.
#[tactic(auto, using(crate::proofs::Pairs::partner_id, crate::proofs::Pairs::partner_none, crate::proofs::Pairs::put_dash))]
fn put_partner(out: &mut [u8], at: usize, n: usize, ids: &[u32], who: u16) -> usize
    requires n_in_bounds { n ≤ length ids.now }
    requires who_in_bounds { at + length (following (partner n ids.now who)) ≤ length out.old }
    ensures { Put at (following (partner n ids.now who)) out.old out.new result }
{
    let pair = who as usize;
    if pair < n {
        return text::put_following(out, at, ids[pair] as u64);
    }
    out[at] = b' ';
    out[at + 1] = b'-';
    at + 2
}

// Puts pair i's line.
#[tactic(auto, using(crate::proofs::Pairs::length_pair, crate::proofs::Pairs::put_pair))]
fn put_pair(
    out: &mut [u8],
    at: usize,
    n: usize,
    ids: &[u32],
    donors: &[u16],
    recipients: &[u16],
    i: usize,
) -> usize
    requires plan_tables_hold { PlanTablesHold n ids.now donors.now recipients.now }
    requires i_lt_n { i < n }
    requires i_in_bounds { at + length (pair_line n ids.now donors.now recipients.now i) ≤ length out.old }
    ensures { let line = pair_line n ids.now donors.now recipients.now i in
        Put at line out.old out.new result }
{
    let after_id = text::put_number(out, at, ids[i] as u64);
    let after_donor = put_partner(out, after_id, n, ids, donors[i]);
    let after_recipient = put_partner(out, after_donor, n, ids, recipients[i]);
    out[after_recipient] = b'\n';
    after_recipient + 1
}

// Puts the lines of all n pairs.
pub fn put_pairs(
    out: &mut [u8],
    at: usize,
    n: usize,
    ids: &[u32],
    donors: &[u16],
    recipients: &[u16],
) -> usize
    requires plan_tables_hold { PlanTablesHold n ids.now donors.now recipients.now }
    requires recipients_in_bounds { at + length (pair_lines n ids.now donors.now recipients.now) ≤ length out.old }
    ensures { let lines = pair_lines n ids.now donors.now recipients.now in
        Put at lines out.old out.new result }
{
    let mut end = at;
    for i in 0..n {
        end = put_pair(out, end, n, ids, donors, recipients, i);
    }
    end
}

// The length of what `put_partner` puts.
#[tactic(auto, using(crate::proofs::Pairs::partner_id, crate::proofs::Pairs::partner_none))]
fn partner_length(n: usize, ids: &[u32], who: u16) -> usize
    requires { n ≤ length ids.now }
    ensures { (result ≡ length (following (partner n ids.now who))) × (result ≤ 21) }
{
    let pair = who as usize;
    if n <= pair {
        return 2;
    }
    1 + text::digits(ids[pair] as u64)
}

// The length of what `put_pair` puts.
#[tactic(auto, using(crate::proofs::Pairs::length_pair))]
fn pair_length(n: usize, ids: &[u32], donors: &[u16], recipients: &[u16], i: usize) -> usize
    requires plan_tables_hold { PlanTablesHold n ids.now donors.now recipients.now }
    requires i_lt_n { i < n }
    ensures { result ≡ length (pair_line n ids.now donors.now recipients.now i) }
{
    let id = text::digits(ids[i] as u64);
    let donor = partner_length(n, ids, donors[i]);
    let recipient = partner_length(n, ids, recipients[i]);
    id + donor + recipient + 1
}

// Do the lines of all n pairs fit into `room` bytes, of which `used` are for the other lines? The sum stays within `room`, whatever n is.
pub fn pairs_fit(
    room: usize,
    used: usize,
    n: usize,
    ids: &[u32],
    donors: &[u16],
    recipients: &[u16],
) -> bool
    requires { PlanTablesHold n ids.now donors.now recipients.now }
    ensures { result ≡ leb (used + length (pair_lines n ids.now donors.now recipients.now)) room }
{
    if room < used {
        return false;
    }
    let mut left = room - used;
    for i in 0..n {
        let line = pair_length(n, ids, donors, recipients, i);
        if left < line {
            return false;
        }
        left -= line;
    }
    true
}
