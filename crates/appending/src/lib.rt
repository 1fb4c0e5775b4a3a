// The sheet of two sheets, written into a lent buffer (document 02, W-201): their version and points, the pairs' fields of both, and both shuffles.
#![tactic(auto)]

ghost use Rattle.std.specs.Prelude.{◌≡◌, ◌+◌, ◌*◌, ◌≤◌, length};
ghost use mathlib.Core.List.{flat_map};
ghost use Rattle.laws.specs.Below.{table};
ghost use Rattle.laws.specs.Digits.{bytes};
ghost use Rattle.laws.specs.Lent.{filled, stored};
ghost use Rattle.pool.specs.Points.{point_count};
ghost use Rattle.pool.specs.Sheet.{points_field, pair_field, head_size, pair_size, first_pair, sheet_length, version_in, pairs_in, point_at, pair_at, shuffle_at};
ghost use Rattle.pool.specs.Faultless.{FaultlessSheet};
ghost use Rattle.pool.specs.Joining.{joined_sheet};
ghost use Rattle.pool.specs.Joinable.{length_together, Joinable};

// Writes the points' field of a sheet of version 2, as it stands there.
fn put_points(out: &mut [u8], sheet: &[u8], version: u16)
    requires { FaultlessSheet sheet.now × (version ≡ version_in sheet.now) × (first_pair version ≤ length out.old) }
    ensures { let own = table (point_count version) (point_at sheet.now) in
        out.new ≡ stored head_size (points_field version own) out.old }
{
    let from = layout::POINTS_PLACE;
    let to = layout::first_pair(version);
    copying::put_bytes(out, from, &sheet[from..to]);
}

// Writes the fields of the n pairs of a sheet from `at` on, as they stand there.
fn put_pairs(out: &mut [u8], at: usize, sheet: &[u8], version: u16, n: usize)
    requires { FaultlessSheet sheet.now × (version ≡ version_in sheet.now) × (n ≡ pairs_in sheet.now)
        × (at + pair_size * n ≤ length out.old) }
    ensures { out.new ≡ stored at (flat_map pair_field (table n (pair_at sheet.now))) out.old }
{
    let from = layout::first_pair(version);
    let to = layout::pair_place(version, n);
    copying::put_bytes(out, at, &sheet[from..to]);
}

// Writes the numbers of the shuffle of a sheet of n pairs from `at` on, `more` added to each.
fn put_raised(out: &mut [u8], at: usize, sheet: &[u8], version: u16, n: usize, more: usize)
    requires { (n ≤ 200) × (more ≤ 200) × (version ≡ version_in sheet.now) × (sheet_length version n ≤ length sheet.now)
        × (at + 2 * n ≤ length out.old) }
    ensures { let s = table n (λ j. shuffle_at sheet.now n j + more) in
        out.new ≡ stored at (flat_map (bytes 2) s) out.old }
{
    let from = layout::pair_place(version, n) + layout::START_LENGTH;
    for j in 0..n {
        let drawn = framing::number(sheet, from + 2 * j, 2);
        encoding::put(out, at + 2 * j, 2, drawn + more as u64);
    }
}

// Writes the sheet of two sheets, and gives its length.
pub fn put_joined(out: &mut [u8], first: &[u8], second: &[u8]) -> usize
    requires { Joinable first.now second.now × (length_together first.now second.now ≤ length out.old) }
    ensures { let sheet = joined_sheet first.now second.now in
        (result ≡ length sheet) × (out.new ≡ filled sheet out.old) }
{
    let version = framing::version_in(first);
    let n = framing::pairs_in(first);
    let m = framing::pairs_in(second);
    encoding::put_head(out, u64::from(version), (n + m) as u64);
    put_points(out, first, version);
    put_pairs(out, layout::first_pair(version), first, version, n);
    put_pairs(out, layout::pair_place(version, n), second, version, m);
    let at = layout::pair_place(version, n + m);
    encoding::put_start(out, at, layout::SHUFFLE_TAG, (2 * (n + m)) as u64);
    put_raised(out, at + layout::START_LENGTH, first, version, n, 0);
    put_raised(
        out,
        at + layout::START_LENGTH + 2 * n,
        second,
        version,
        m,
        n,
    );
    layout::sheet_length(version, n + m)
}
