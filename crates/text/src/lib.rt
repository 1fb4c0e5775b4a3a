// The pieces of a printout (document 01, 'Writer and printout'): numbers in decimal, words and lines, put into a lent buffer, and their lengths.
#![tactic(auto)]

ghost use Rattle.std.specs.Prelude.{◌≡◌, ◌+◌, ◌≤◌, ◌<◌, length};
ghost use Rattle.text.specs.Text.{decimal, digit as Text·digit, following, number_line};
ghost use Rattle.text.specs.Put.{Put};

// How many digits x has.
pub fn digits(x: u64) -> usize
    ensures { (result ≡ length (decimal x)) × (result ≤ 20) }
{
    if 9 < x { digits(x / 10) + 1 } else { 1 }
}

// The character of a digit.
fn digit(d: u64) -> u8
    requires { d < 10 }
    ensures { result ≡ Text·digit d }
{
    b'0' + d as u8
}

// Puts x in decimal from `at` on: its higher digits first, then the last one. Like every `put`, it gives the place after what it put.
#[tactic(auto, using(crate::proofs::Decimal::length_small, crate::proofs::Decimal::length_large, crate::proofs::Puts::put_only, crate::proofs::Puts::put_last))]
pub fn put_number(out: &mut [u8], at: usize, x: u64) -> usize
    requires { at + length (decimal x) ≤ length out.old }
    ensures { Put at (decimal x) out.old out.new result }
{
    if x < 10 {
        out[at] = digit(x);
        return at + 1;
    }
    let last = put_number(out, at, x / 10);
    out[last] = digit(x % 10);
    last + 1
}

// Puts a word.
fn put_word(out: &mut [u8], at: usize, word: &[u8]) -> usize
    requires { at + length word.now ≤ length out.old }
    ensures { Put at word.now out.old out.new result }
{
    copying::put_bytes(out, at, word);
    at + word.len()
}

// Puts a number that follows a word: one space, and the number.
pub fn put_following(out: &mut [u8], at: usize, x: u64) -> usize
    requires { at + length (following (decimal x)) ≤ length out.old }
    ensures { Put at (following (decimal x)) out.old out.new result }
{
    out[at] = b' ';
    put_number(out, at + 1, x)
}

// Puts a word, each number in decimal after one space, and a newline.
pub fn put_line(out: &mut [u8], at: usize, word: &[u8], numbers: &[u64]) -> usize
    requires { at + length (number_line word.now numbers.now) ≤ length out.old }
    ensures { Put at (number_line word.now numbers.now) out.old out.new result }
{
    let mut end = put_word(out, at, word);
    for number in numbers {
        end = put_following(out, end, *number);
    }
    out[end] = b'\n';
    end + 1
}

// The length of what `put_line` puts.
pub fn line_length(word: &[u8], numbers: &[u64]) -> usize
    requires { (length word.now ≤ 7) × (length numbers.now ≤ 3) }
    ensures { (result ≡ length (number_line word.now numbers.now)) × (result ≤ 71) }
{
    let mut length = word.len();
    for number in numbers {
        length += 1 + digits(*number);
    }
    length + 1
}
