// Clearing: after each round but the last, every subset sharing a place with the choice gets weight 0, by products. What runs depends on n, the
// cursor and the rounds that are left alone: after a choice of none it runs as well.
#![tactic(auto)]

ghost use Rattle.std.specs.Prelude.{◌≡◌, cond, [], ◌∷◌};
ghost use Rattle.greedy.specs.Places.{meets};
ghost use Rattle.greedy.specs.Rounds as Rounds;
ghost use Rattle.exchange.specs.Subsets.{up_to_three, order};
ghost use Rattle.gates.specs.Counting.{counted, TallyRoom};
ghost use Rattle.gates.specs.Secrets.{value_of};
ghost use Rattle.cursor.specs.Cursor.{OnSubset, shown, subset_at};
ghost use Rattle.clearing.specs.Preconditions.{Clearing};

use cursor::Places;
use gates::{Gated, Secret, SecretPlaces, Tally};

// The weight x of the subset at the cursor after the choice: 2 products for a two, 3 for a triple.
fn weight_after(n: usize, x: Secret, p: Places, choice: SecretPlaces, t: Tally) -> Gated<Secret>
    requires { OnSubset n p × TallyRoom 0 3 t }
    ensures { (value_of result.value ≡ cond (meets (subset_at n p) (subset_at n (shown choice))) 0 (value_of x))
        × (counted result.tally ≡ Rounds.clearing_tally (subset_at n p ∷ []) (counted t)) }
{
    let first = gates::product(x, gates::demux_readout(p.u, choice), t);
    let second = gates::product(first.value, gates::demux_readout(p.v, choice), first.tally);
    if p.w == n {
        return second;
    }
    gates::product(
        second.value,
        gates::demux_readout(p.w, choice),
        second.tally,
    )
}

// Every subset sharing a place with the choice gets weight 0.
fn all_cleared(n: usize, weights: &mut [u32], choice: SecretPlaces, t: Tally) -> Tally
    requires { Clearing (up_to_three n) weights.old t }
    ensures { (weights.new ≡ Rounds.clear (subset_at n (shown choice)) (order (up_to_three n)) weights.old)
        × (counted result ≡ Rounds.clearing_tally (order (up_to_three n)) (counted t)) }
{
    let mut p = cursor::first(n);
    let mut tally = t;
    for i in 0..weights.len() {
        let before = gates::load(weights, i);
        let after = weight_after(n, before, p, choice, tally);
        gates::store_u32(weights, i, after.value);
        tally = after.tally;
        p = cursor::next(n, p);
    }
    tally
}

// The same where rounds are left; after the last, nothing.
fn cleared(n: usize, weights: &mut [u32], choice: SecretPlaces, left: usize, t: Tally) -> Tally
    requires { Clearing (up_to_three n) weights.old t }
    ensures { (weights.new ≡ Rounds.clear_before left (subset_at n (shown choice)) (order (up_to_three n)) weights.old)
        × (counted result ≡ Rounds.clearing_tally_before left (order (up_to_three n)) (counted t)) }
{
    if left < 1 {
        return t;
    }
    all_cleared(n, weights, choice, t)
}

// The step: it raises the lent tally.
pub fn clear(n: usize, weights: &mut [u32], choice: SecretPlaces, left: usize, tally: &mut Tally)
    requires { Clearing (up_to_three n) weights.old tally.old }
    ensures { (weights.new ≡ Rounds.clear_before left (subset_at n (shown choice)) (order (up_to_three n)) weights.old)
        × (counted tally.new ≡ Rounds.clearing_tally_before left (order (up_to_three n)) (counted tally.old)) }
{
    let old = *tally;
    *tally = cleared(n, weights, choice, left, old);
}
