// A sheet's fields, one at a time (document 01, 'The pool sheet'): a number in its bytes, a field where it is due, and the head.
#![tactic(auto)]

ghost use Rattle.std.specs.Prelude.{◌≡◌, ◌+◌, ◌≤◌, length};
ghost use Rattle.laws.specs.Digits.{big_endian};
ghost use Rattle.refusal.specs.Number.{fault_at};
ghost use Rattle.pool.specs.Sheet.{head_size, version_in, pairs_in};
ghost use Rattle.pool.specs.Faults.{field_fault, head_fault};

use refusal::Refusal;

// The number in the k bytes from `at` on, high byte first.
pub fn number(b: &[u8], at: usize, k: usize) -> u64
    requires { (k ≤ 8) × (at + k ≤ length b.now) }
    ensures { result ≡ big_endian k b.now at }
{
    let mut x: u64 = 0;
    for &byte in &b[at..at + k] {
        x = x * 256 + u64::from(byte);
    }
    x
}

// A field at o, of this tag and length: 1, 2, 1.
pub fn field(b: &[u8], o: usize, tag: u64, len: usize) -> Result<(), Refusal>
    requires { (o ≤ 65536) × (len ≤ 65536) }
    ensures { fault_at o result ≡ field_fault b.now o tag len }
{
    if b.len() < o + layout::START_LENGTH {
        return Err(Refusal::CutOff);
    }
    if number(b, o, 1) != tag {
        return Err(Refusal::WrongField);
    }
    if number(b, o + 1, 2) != len as u64 {
        return Err(Refusal::WrongField);
    }
    if b.len() < o + layout::START_LENGTH + len {
        Err(Refusal::CutOff)
    } else {
        Ok(())
    }
}

// The version, as the head says.
pub fn version_in(b: &[u8]) -> u16
    requires { head_size ≤ length b.now }
    ensures { result ≡ version_in b.now }
{
    number(b, layout::VERSION_PLACE, 2) as u16
}

// N, as the head says.
pub fn pairs_in(b: &[u8]) -> usize
    requires { head_size ≤ length b.now }
    ensures { result ≡ pairs_in b.now }
{
    number(b, layout::PAIRS_PLACE, 2) as usize
}

// The head: its field, then 3 and 4.
pub fn head(b: &[u8]) -> Result<(), Refusal>
    ensures { fault_at 0 result ≡ head_fault b.now }
{
    field(b, 0, layout::HEAD_TAG, layout::HEAD_LENGTH)?;
    if !layout::known(version_in(b)) {
        return Err(Refusal::WrongVersion);
    }
    if pairs_in(b) > 200 {
        return Err(Refusal::TooManyPairs);
    }
    Ok(())
}
