// The rounds: always all of them. What runs depends on n and the number of rounds alone.
#![tactic(auto)]

ghost use Rattle.std.specs.Prelude.{◌≡◌, length};
ghost use Rattle.greedy.specs.Rounds as Rounds;
ghost use Rattle.exchange.specs.Subsets.{up_to_three, order};
ghost use Rattle.gates.specs.Counting.{counted};
ghost use Rattle.rounds.specs.Preconditions.{Rounding};

use gates::Tally;

// A round for each entry of `choices`, over a weight for each subset. The tally is lent on to each step.
pub fn all_rounds(n: usize, floor: u32, weights: &mut [u32], choices: &mut [u32], tally: &mut Tally)
    requires { Rounding (up_to_three n) weights.old choices.old tally.old }
    ensures { Rounds.left weights.new choices.new (counted tally.new)
        ≡ Rounds.rounds floor (length choices.old) (order (up_to_three n)) weights.old (counted tally.old) }
{
    for k in 0..choices.len() {
        let at = choosing::choose(n, floor, weights, choices, k, tally);
        clearing::clear(n, weights, at, choices.len() - k - 1, tally);
    }
}
