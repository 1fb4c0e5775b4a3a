// The pieces of a sheet, written into a lent buffer (document 01, 'The pool sheet', with 02's version 2): a number, a field's start, the head, a pair, and
// a field of two-byte numbers: the points, and the shuffle.
#![tactic(auto)]

ghost use Rattle.std.specs.Prelude.{◌≡◌, ◌+◌, ◌*◌, ◌≤◌, length};
ghost use mathlib.Core.List.{◌++◌, flat_map};
ghost use Rattle.laws.specs.Below.{table};
ghost use Rattle.laws.specs.Digits.{bytes};
ghost use Rattle.laws.specs.Lent.{stored};
ghost use Rattle.pool.specs.Sheet.{head_field, numbers_field, pair_field, start_length, head_size, pair_size};
ghost use Rattle.pool.specs.Tables.{item_in};
ghost use Rattle.encoding.specs.PairValue.{pair_by, group_bytes, tissue_bytes};

// Writes the k bytes of x from `at` on, high byte first; the last byte is stored first.
pub fn put(out: &mut [u8], at: usize, k: usize, x: u64)
    requires { at + k ≤ length out.old }
    ensures { out.new ≡ stored at (bytes k x) out.old }
{
    let mut left = x;
    for i in (0..k).rev() {
        out[at + i] = (left % 256) as u8;
        left /= 256;
    }
}

// A field's start: its tag and its length.
pub fn put_start(out: &mut [u8], at: usize, tag: u64, len: u64)
    requires { at + start_length ≤ length out.old }
    ensures { out.new ≡ stored at (bytes 1 tag ++ bytes 2 len) out.old }
{
    put(out, at, 1, tag);
    put(out, at + 1, 2, len);
}

// The head: the version, and N.
pub fn put_head(out: &mut [u8], version: u64, n: u64)
    requires { head_size ≤ length out.old }
    ensures { out.new ≡ stored 0 (head_field version n) out.old }
{
    put_start(out, 0, layout::HEAD_TAG, layout::HEAD_LENGTH as u64);
    put(out, layout::VERSION_PLACE, 2, version);
    put(out, layout::PAIRS_PLACE, 2, n);
}

// The four one-byte numbers of a pair.
fn put_groups(
    out: &mut [u8],
    at: usize,
    donor_blood: u8,
    patient_blood: u8,
    donor_age: u8,
    patient_age: u8,
)
    requires { at + 4 ≤ length out.old }
    ensures { out.new ≡ stored at (group_bytes donor_blood patient_blood donor_age patient_age) out.old }
{
    put(out, at, 1, u64::from(donor_blood));
    put(out, at + 1, 1, u64::from(patient_blood));
    put(out, at + 2, 1, u64::from(donor_age));
    put(out, at + 3, 1, u64::from(patient_age));
}

// The three eight-byte numbers of a pair.
fn put_tissue(
    out: &mut [u8],
    at: usize,
    donor_antigens: u64,
    patient_antigens: u64,
    patient_antibodies: u64,
)
    requires { at + 24 ≤ length out.old }
    ensures { out.new ≡ stored at (tissue_bytes donor_antigens patient_antigens patient_antibodies) out.old }
{
    put(out, at, 8, donor_antigens);
    put(out, at + 8, 8, patient_antigens);
    put(out, at + 16, 8, patient_antibodies);
}

// A pair's field.
pub fn put_pair(
    out: &mut [u8],
    at: usize,
    id: u32,
    donor_blood: u8,
    patient_blood: u8,
    donor_age: u8,
    patient_age: u8,
    donor_antigens: u64,
    patient_antigens: u64,
    patient_antibodies: u64,
)
    requires { at + pair_size ≤ length out.old }
    ensures { let q = pair_by id donor_blood patient_blood donor_age patient_age donor_antigens patient_antigens patient_antibodies in
        out.new ≡ stored at (pair_field q) out.old }
{
    put_start(out, at, layout::PAIR_TAG, layout::PAIR_LENGTH as u64);
    put(out, at + layout::ID_AT, 4, u64::from(id));
    put_groups(
        out,
        at + layout::DONOR_BLOOD_AT,
        donor_blood,
        patient_blood,
        donor_age,
        patient_age,
    );
    put_tissue(
        out,
        at + layout::DONOR_ANTIGENS_AT,
        donor_antigens,
        patient_antigens,
        patient_antibodies,
    );
}

// The first n numbers of a table, two bytes each.
fn put_numbers(out: &mut [u8], at: usize, n: usize, t: &[u16])
    requires { (at + 2 * n ≤ length out.old) × (n ≤ length t.now) }
    ensures { let s = table n (item_in t.now) in
        out.new ≡ stored at (flat_map (bytes 2) s) out.old }
{
    for j in 0..n {
        put(out, at + 2 * j, 2, u64::from(t[j]));
    }
}

// The field of this tag with the first n numbers of a table.
pub fn put_field(out: &mut [u8], at: usize, tag: u64, n: usize, t: &[u16])
    requires { (at + start_length + 2 * n ≤ length out.old) × (n ≤ length t.now) }
    ensures { let s = table n (item_in t.now) in
        out.new ≡ stored at (numbers_field tag s) out.old }
{
    put_start(out, at, tag, (2 * n) as u64);
    put_numbers(out, at + layout::START_LENGTH, n, t);
}
