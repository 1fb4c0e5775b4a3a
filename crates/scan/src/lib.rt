// The checker of a sheet's bytes (document 01, 'Turned back'): the first fault there is, with its place.
#![tactic(auto)]

ghost use Rattle.std.specs.Prelude.{◌≡◌, ◌+◌, ◌≤◌, ◌<◌, length};
ghost use Rattle.refusal.specs.Fault.{first_below};
ghost use Rattle.refusal.specs.Number.{fault_at, found_fault};
ghost use Rattle.pool.specs.Sheet.{points_place, pair_size, pair_place, version_in, pair_at, pair_due};
ghost use Rattle.pool.specs.Faults.{pair_fault, points_field_fault, pair_field_fault, shuffle_field_fault, sheet_fault};
ghost use Rattle.scan.specs.Preconditions.{Noted};

use refusal::{At, Refusal, Refused};

// Version 2's points: their field, then 14. Version 1 has none.
fn points_field(b: &[u8], version: u16) -> Result<(), Refusal>
    requires { version ≡ version_in b.now }
    ensures { fault_at points_place result ≡ points_field_fault b.now }
{
    if !layout::has_points(version) {
        return Ok(());
    }
    framing::field(
        b,
        layout::POINTS_PLACE,
        layout::POINTS_TAG,
        layout::POINTS_LENGTH,
    )?;
    let mut table = [0u16; 6];
    columns::fill_numbers(b, layout::POINTS_PLACE, layout::POINTS, &mut table);
    points::judge(points::own(&table))
}

// 6 and 7 of pair i, whose field is whole and whose id stands at i of `ids`, after those of the earlier pairs.
fn pair_value(b: &[u8], version: u16, i: usize, ids: &[u32]) -> Result<(), Refusal>
    requires { (i < 200) × (version ≡ version_in b.now) × (pair_place version i + pair_size ≤ length b.now) × Noted b.now (i + 1) ids.now }
    ensures { let o = pair_due b.now i in
        fault_at o result ≡ pair_fault o (pair_at b.now) i }
{
    let o = layout::pair_place(version, i);
    checks::pair(
        i,
        ids,
        b[o + layout::DONOR_BLOOD_AT],
        b[o + layout::PATIENT_BLOOD_AT],
        b[o + layout::DONOR_AGE_AT],
        b[o + layout::PATIENT_AGE_AT],
    )
}

// The fields of the pairs, one after another. The ids passed are noted, each to be held to the earlier ones.
fn pairs(b: &[u8], version: u16, n: usize) -> Result<(), Refused>
    requires { (n ≤ 200) × (version ≡ version_in b.now) }
    ensures { found_fault result ≡ first_below n (pair_field_fault b.now) }
{
    let mut ids = [0u32; 200];
    for i in 0..n {
        let place = layout::pair_place(version, i);
        framing::field(b, place, layout::PAIR_TAG, layout::PAIR_LENGTH).at(place)?;
        ids[i] = framing::number(b, place + layout::ID_AT, 4) as u32;
        pair_value(b, version, i, &ids).at(place)?;
    }
    Ok(())
}

// The shuffle's field, then 8.
fn shuffle_field(b: &[u8], version: u16, n: usize) -> Result<(), Refusal>
    requires { (n ≤ 200) × (version ≡ version_in b.now) }
    ensures { fault_at (pair_due b.now n) result ≡ shuffle_field_fault b.now n }
{
    let o = layout::pair_place(version, n);
    framing::field(b, o, layout::SHUFFLE_TAG, 2 * n)?;
    let mut drawn = [0u16; 200];
    columns::fill_numbers(b, o, n, &mut drawn);
    checks::shuffle(&drawn, n)
}

// The first fault of a sheet.
pub fn check(b: &[u8]) -> Result<(), Refused>
    ensures { found_fault result ≡ sheet_fault b.now }
{
    framing::head(b).at(0)?;
    let version = framing::version_in(b);
    points_field(b, version).at(layout::POINTS_PLACE)?;
    let n = framing::pairs_in(b);
    pairs(b, version, n)?;
    let place = layout::pair_place(version, n);
    shuffle_field(b, version, n).at(place)?;
    let end = layout::sheet_length(version, n);
    if end < b.len() {
        return Err(Refusal::LeftOver.at(end));
    }
    Ok(())
}
