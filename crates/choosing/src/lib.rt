// Choosing: the lowest-numbered subset of greatest weight, made by gates. What runs depends on n, the number of weights and the cursor alone. Winners
// come by value; only `choose_part` looks a weight up, and `chosen_in_round` stores a choice.
#![tactic(auto)]

ghost use Rattle.std.specs.Prelude.{◌≡◌, cond, ◌+◌, ◌^◌, ◌<◌, ltb, length, set};
ghost use Rattle.greedy.specs.Rounds.{winner, by_halves, choosing};
ghost use Rattle.exchange.specs.Subsets.{up_to_three, order};
ghost use Rattle.gates.specs.Counting.{counted, TallyRoom, Raised};
ghost use Rattle.gates.specs.Secrets.{value_of};
ghost use Rattle.cursor.specs.Cursor.{OnSubset, places, shown, places_at};
ghost use Rattle.choosing.specs.Parts.{won_by, choice_made, choice_of, Standing, Part, Whole, Turn};

use cursor::Places;
use gates::{Gated, Secret, SecretPlaces, Tally};

// A winner: its weight, its number and its places.
#[derive(Clone, Copy)]
pub struct Best {
    pub weight: Secret,
    pub number: Secret,
    pub at: SecretPlaces,
}

// A part's winner, and the cursor past the part.
#[derive(Clone, Copy)]
pub struct Won {
    pub best: Best,
    pub next: Places,
}

// A choice, and its places.
#[derive(Clone, Copy)]
pub struct Chosen {
    pub number: Secret,
    pub at: SecretPlaces,
}

// The heavier of two winners, the left on a tie: 1 comparison and 5 products.
fn join(a: Best, b: Best, t: Tally) -> Gated<Best>
    requires { TallyRoom 1 5 t }
    ensures { (result.value ≡ cond (ltb (value_of a.weight) (value_of b.weight)) b a) × Raised 1 5 t result.tally }
{
    let right = gates::comparison(a.weight, b.weight, t);
    let weight = gates::pick(right.value, b.weight, a.weight, right.tally);
    let number = gates::pick(right.value, b.number, a.number, weight.tally);
    let u = gates::pick(right.value, b.at.u, a.at.u, number.tally);
    let v = gates::pick(right.value, b.at.v, a.at.v, u.tally);
    let w = gates::pick(right.value, b.at.w, a.at.w, v.tally);
    Gated {
        value: Best {
            weight: weight.value,
            number: number.value,
            at: SecretPlaces {
                u: u.value,
                v: v.value,
                w: w.value,
            },
        },
        tally: w.tally,
    }
}

// A subset's places, as secrets.
fn hidden(n: usize, p: Places) -> SecretPlaces
    requires { OnSubset n p }
    ensures { shown result ≡ p }
{
    let u = gates::known(p.u);
    let v = gates::known(p.v);
    let w = gates::known(p.w);
    SecretPlaces { u, v, w }
}

// The winner of a part that is one subset, of this weight and number, where the cursor stands at p.
fn single(n: usize, weight: Secret, number: usize, p: Places, t: Tally) -> Gated<Won>
    requires { Standing (up_to_three n) number p }
    ensures { (won_by result ≡ winner (value_of weight) number (counted t))
        × (shown result.value.best.at ≡ places_at (up_to_three n) number)
        × (result.value.next ≡ places_at (up_to_three n) (number + 1)) }
{
    let at = hidden(n, p);
    let number = gates::known(number);
    let best = Best { weight, number, at };
    let next = cursor::next(n, p);
    Gated {
        value: Won { best, next },
        tally: t,
    }
}

// The winner of the part of the weights whose first number is `first`, where the cursor stands at p: "halves the part of the table under study until
// one subset is left".
#[cycle(choose_halves_choose_part)]
fn choose_part(n: usize, weights: &[u32], first: usize, p: Places, t: Tally) -> Gated<Won>
    requires { Part (up_to_three n) weights.now first p t }
    ensures { (won_by result ≡ by_halves (length weights.now) first weights.now (counted t))
        × (shown result.value.best.at ≡ places_at (up_to_three n) (value_of result.value.best.number))
        × (result.value.next ≡ places_at (up_to_three n) (first + length weights.now)) }
{
    if weights.len() <= 1 {
        return single(n, gates::load(weights, 0), first, p, t);
    }
    choose_halves(n, weights, first, p, t)
}

// "then joins the winners": of a part of two subsets or more.
#[cycle(choose_halves_choose_part)]
fn choose_halves(n: usize, weights: &[u32], first: usize, p: Places, t: Tally) -> Gated<Won>
    requires { Part (up_to_three n) weights.now first p t × (1 < length weights.now) }
    ensures { (won_by result ≡ by_halves (length weights.now) first weights.now (counted t))
        × (shown result.value.best.at ≡ places_at (up_to_three n) (value_of result.value.best.number))
        × (result.value.next ≡ places_at (up_to_three n) (first + length weights.now)) }
{
    let half = weights.len() / 2;
    let left = choose_part(n, &weights[..half], first, p, t);
    let right = choose_part(
        n,
        &weights[half..],
        first + half,
        left.value.next,
        left.tally,
    );
    let joined = join(left.value.best, right.value.best, right.tally);
    Gated {
        value: Won {
            best: joined.value,
            next: right.value.next,
        },
        tally: joined.tally,
    }
}

// The final test: the winner, or none where it is not above the floor. 1 comparison and 4 products; `none` is the number of all subsets.
fn final_test(n: usize, floor: u32, none: usize, best: Best, t: Tally) -> Gated<Chosen>
    requires { (n < 2 ^ 32) × (none < 2 ^ 32) × TallyRoom 1 4 t }
    ensures { (value_of result.value.number ≡ cond (ltb floor (value_of best.weight)) (value_of best.number) none)
        × (shown result.value.at ≡ cond (ltb floor (value_of best.weight)) (shown best.at) (places n n n))
        × Raised 1 4 t result.tally }
{
    let floor = gates::known(floor as usize);
    let none = gates::known(none);
    let nowhere = gates::known(n);
    let some = gates::comparison(floor, best.weight, t);
    let number = gates::pick(some.value, best.number, none, some.tally);
    let u = gates::pick(some.value, best.at.u, nowhere, number.tally);
    let v = gates::pick(some.value, best.at.v, nowhere, u.tally);
    let w = gates::pick(some.value, best.at.w, nowhere, v.tally);
    Gated {
        value: Chosen {
            number: number.value,
            at: SecretPlaces {
                u: u.value,
                v: v.value,
                w: w.value,
            },
        },
        tally: w.tally,
    }
}

// The choice: "the lowest-numbered subset of greatest weight", "only if its weight is above the floor"; else "the choice is n, meaning none".
fn choice(n: usize, floor: u32, weights: &[u32], t: Tally) -> Gated<Chosen>
    requires { Whole (up_to_three n) weights.now t }
    ensures { (choice_made result ≡ choosing floor (order (up_to_three n)) weights.now (counted t))
        × (shown result.value.at ≡ places_at (up_to_three n) (value_of result.value.number)) }
{
    let won = choose_part(n, weights, 0, cursor::first(n), t);
    final_test(n, floor, weights.len(), won.value.best, won.tally)
}

// Round k begins, and its choice is stored.
fn chosen_in_round(
    n: usize,
    floor: u32,
    weights: &[u32],
    choices: &mut [u32],
    k: usize,
    t: Tally,
) -> Gated<SecretPlaces>
    requires { Turn (up_to_three n) weights.now choices.old k t }
    ensures { let c = choice_of (up_to_three n) floor weights.now t in
        (choices.new ≡ set choices.old k c.number)
        × (counted result.tally ≡ c.tally)
        × (shown result.value ≡ places_at (up_to_three n) c.number) }
{
    let chosen = choice(n, floor, weights, gates::begin_round(t));
    gates::store_u32(choices, k, chosen.value.number);
    Gated {
        value: chosen.value.at,
        tally: chosen.tally,
    }
}

// The step: it raises the lent tally, and gives the places of the choice.
pub fn choose(
    n: usize,
    floor: u32,
    weights: &[u32],
    choices: &mut [u32],
    k: usize,
    tally: &mut Tally,
) -> SecretPlaces
    requires { Turn (up_to_three n) weights.now choices.old k tally.old }
    ensures { let c = choice_of (up_to_three n) floor weights.now tally.old in
        (choices.new ≡ set choices.old k c.number)
        × (counted tally.new ≡ c.tally)
        × (shown result ≡ places_at (up_to_three n) c.number) }
{
    let old = *tally;
    let made = chosen_in_round(n, floor, weights, choices, k, old);
    *tally = made.tally;
    made.value
}
