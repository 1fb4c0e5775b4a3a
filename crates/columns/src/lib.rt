// One number of every pair of a sheet, and the numbers of its points or its shuffle, each into a lent table. Of which version the sheet is, the caller says.
#![tactic(auto)]

ghost use Rattle.std.specs.Prelude.{◌≡◌, ℕ, ◌+◌, ◌*◌, ◌^◌, ◌≤◌, ◌<◌, length};
ghost use Rattle.std.proofs.Common.{lit≤};
ghost use Rattle.laws.specs.Below.{table};
ghost use Rattle.laws.specs.Digits.{big_endian};
ghost use Rattle.laws.specs.Lent.{filled};
ghost use Rattle.pool.specs.Sheet.{start_length, pair_size, pair_place, number_at};

// What a table's entries are: numbers of one, two, four or eight bytes.
pub trait Entry: Copy {
    // How many.
    const BYTES: usize;

    ghost BYTES: { ℕ };

    // The entry that is this number.
    ghost of: { ℕ → Self };

    fn from_number(number: u64) -> Self
        requires { number < 256 ^ BYTES }
        ensures { result ≡ of number };

    ghost few: { BYTES ≤ 8 };
}

impl Entry for u8 {
    const BYTES: usize = 1;

    ghost BYTES = { 1 };

    ghost of = { λ number. number };

    ghost few = { lit≤ tt };

    fn from_number(number: u64) -> u8 {
        number as u8
    }
}

impl Entry for u16 {
    const BYTES: usize = 2;

    ghost BYTES = { 2 };

    ghost of = { λ number. number };

    ghost few = { lit≤ tt };

    fn from_number(number: u64) -> u16 {
        number as u16
    }
}

impl Entry for u32 {
    const BYTES: usize = 4;

    ghost BYTES = { 4 };

    ghost of = { λ number. number };

    ghost few = { lit≤ tt };

    fn from_number(number: u64) -> u32 {
        number as u32
    }
}

impl Entry for u64 {
    const BYTES: usize = 8;

    ghost BYTES = { 8 };

    ghost of = { λ number. number };

    ghost few = { lit≤ tt };

    fn from_number(number: u64) -> u64 {
        number
    }
}

// n numbers, the first of which stands at `first`, and each `apart` bytes after the one before it.
fn fill<T: Entry>(b: &[u8], first: usize, apart: usize, n: usize, t: &mut [T])
    requires { ((i : ℕ) → i < n → first + apart * i + T.BYTES ≤ length b.now) × (n ≤ length t.old) }
    ensures { t.new ≡ filled (table n (λ i. T.of (big_endian T.BYTES b.now (first + apart * i)))) t.old }
{
    for i in 0..n {
        t[i] = T::from_number(framing::number(b, first + apart * i, T::BYTES));
    }
}

// A number of each of the first n pairs: the one `at` bytes into the field.
pub fn fill_column<T: Entry>(b: &[u8], version: u16, n: usize, at: usize, t: &mut [T])
    requires { (n ≤ 200) × (at + T.BYTES ≤ pair_size) × (pair_place version n ≤ length b.now) × (n ≤ length t.old) }
    ensures { t.new ≡ filled (table n (λ i. T.of (big_endian T.BYTES b.now (pair_place version i + at)))) t.old }
{
    fill(b, layout::first_pair(version) + at, layout::PAIR_SIZE, n, t);
}

// The first n numbers of a field of two-byte numbers that stands at o: the points, and the shuffle.
pub fn fill_numbers(b: &[u8], o: usize, n: usize, t: &mut [u16])
    requires { (n ≤ 200) × (o + start_length + 2 * n ≤ length b.now) × (n ≤ length t.old) }
    ensures { t.new ≡ filled (table n (number_at b.now o)) t.old }
{
    fill(b, o + layout::START_LENGTH, 2, n, t);
}
