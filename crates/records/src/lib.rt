// The records of a plan, in an array by value and in a table that the caller lends.
#![tactic(auto)]

ghost use Rattle.std.specs.Prelude.{◌≡◌, take};
ghost use Rattle.laws.specs.Lent.{filled};
ghost use Rattle.records.specs.Copying.{Writable};

use cycle::Cycle;

// The first `cycles` records, into a lent table; what lies past them stays.
#[tactic(auto, unfolding(laws::specs::Lent::filled))]
pub fn write(out: &mut [Cycle], records: [Cycle; 100], cycles: usize)
    requires { Writable cycles out.old }
    ensures { out.new ≡ filled (take cycles records) out.old }
{
    out[..cycles].copy_from_slice(&records[..cycles]);
}
