// Evaluation: the weight of each subset, made by gates. What runs depends on n and the cursor alone. Weights are made of entries that come by value;
// only `edge` looks them up in the lent tables, and `evaluated` stores.
#![tactic(auto)]

ghost use Rattle.std.specs.Prelude.{◌≡◌, [], ◌∷◌, ◌<◌};
ghost use Rattle.exchange.specs.Subsets.{up_to_three, order, entry, subset_weight, subset_weights, evaluation_tally};
ghost use Rattle.gates.specs.Counting.{counted, TallyRoom, Raised};
ghost use Rattle.gates.specs.Secrets.{value_of};
ghost use Rattle.cursor.specs.Cursor.{OnSubset, subset_at};
ghost use Rattle.entries.specs.Preconditions.{Readable, Shuffled};
ghost use Rattle.evaluation.specs.Preconditions.{Evaluating};
ghost use Rattle.evaluation.specs.Entries.{EdgeInRange, Between, cycle_weight, larger};

use cursor::Places;
use gates::{Gated, Secret, Tally};

// An edge's entries of M and W.
#[derive(Clone, Copy)]
pub struct EdgeEntries {
    pub m: Secret,
    pub w: Secret,
}

// The entries of the edge from donor i to patient j.
fn edge(n: usize, m: &[u8], w: &[u16], i: usize, j: usize) -> EdgeEntries
    requires { Readable n m.now w.now × (i < n) × (j < n) }
    ensures { Between n m.now w.now i j result × EdgeInRange result }
{
    EdgeEntries {
        m: gates::load(m, i * n + j),
        w: gates::load(w, i * n + j),
    }
}

// The weight of the cycle a → b → a: 2 products.
fn two(ab: EdgeEntries, ba: EdgeEntries, t: Tally) -> Gated<Secret>
    requires { EdgeInRange ab × EdgeInRange ba × TallyRoom 0 2 t }
    ensures { (value_of result.value ≡ cycle_weight (ab ∷ ba ∷ [])) × Raised 0 2 t result.tally }
{
    let there = gates::product(ab.m, ba.m, t);
    let sum = gates::sum(ab.w, ba.w);
    gates::product(there.value, sum, there.tally)
}

// The weight of the cycle a → b → c → a: 3 products.
fn three(ab: EdgeEntries, bc: EdgeEntries, ca: EdgeEntries, t: Tally) -> Gated<Secret>
    requires { EdgeInRange ab × EdgeInRange bc × EdgeInRange ca × TallyRoom 0 3 t }
    ensures { (value_of result.value ≡ cycle_weight (ab ∷ bc ∷ ca ∷ [])) × Raised 0 3 t result.tally }
{
    let two = gates::product(ab.m, bc.m, t);
    let there = gates::product(two.value, ca.m, two.tally);
    let sum = gates::sum(gates::sum(ab.w, bc.w), ca.w);
    gates::product(there.value, sum, there.tally)
}

// The larger weight of a triple's two cycles, a → b → c → a and a → c → b → a: 1 comparison and 7 products.
fn triple(
    ab: EdgeEntries,
    bc: EdgeEntries,
    ca: EdgeEntries,
    ac: EdgeEntries,
    cb: EdgeEntries,
    ba: EdgeEntries,
    t: Tally,
) -> Gated<Secret>
    requires { (EdgeInRange ab × EdgeInRange bc × EdgeInRange ca) × (EdgeInRange ac × EdgeInRange cb × EdgeInRange ba) × TallyRoom 1 7 t }
    ensures { (value_of result.value ≡ larger (cycle_weight (ab ∷ bc ∷ ca ∷ [])) (cycle_weight (ac ∷ cb ∷ ba ∷ [])))
        × Raised 1 7 t result.tally }
{
    let first = three(ab, bc, ca, t);
    let second = three(ac, cb, ba, first.tally);
    let later = gates::comparison(first.value, second.value, second.tally);
    gates::pick(later.value, second.value, first.value, later.tally)
}

// The weight of the subset at the cursor. Place p holds pair s(p).
fn weight_at(n: usize, m: &[u8], w: &[u16], s: &[u16], p: Places, t: Tally) -> Gated<Secret>
    requires { Readable n m.now w.now × Shuffled n s.now × OnSubset n p × TallyRoom 1 7 t }
    ensures { (value_of result.value ≡ subset_weight (entry m.now n) (entry w.now n) s.now (subset_at n p))
        × (counted result.tally ≡ evaluation_tally (subset_at n p ∷ []) (counted t)) }
{
    let u = p.u;
    let v = p.v;
    let x = p.w;
    let a = s[u] as usize;
    let b = s[v] as usize;
    let ab = edge(n, m, w, a, b);
    let ba = edge(n, m, w, b, a);
    if x == n {
        return two(ab, ba, t);
    }
    let c = s[x] as usize;
    let bc = edge(n, m, w, b, c);
    let ca = edge(n, m, w, c, a);
    let ac = edge(n, m, w, a, c);
    let cb = edge(n, m, w, c, b);
    triple(ab, bc, ca, ac, cb, ba, t)
}

// The weight of each subset, in the published order.
fn evaluated(n: usize, m: &[u8], w: &[u16], s: &[u16], weights: &mut [u32], t: Tally) -> Tally
    requires { Evaluating (up_to_three n) m.now w.now s.now weights.old t }
    ensures { (weights.new ≡ subset_weights (up_to_three n) (entry m.now n) (entry w.now n) s.now)
        × (counted result ≡ evaluation_tally (order (up_to_three n)) (counted t)) }
{
    let mut p = cursor::first(n);
    let mut tally = t;
    for i in 0..weights.len() {
        let weighed = weight_at(n, m, w, s, p, tally);
        gates::store_u32(weights, i, weighed.value);
        tally = weighed.tally;
        p = cursor::next(n, p);
    }
    tally
}

// The step: it raises the lent tally.
pub fn evaluate(n: usize, m: &[u8], w: &[u16], s: &[u16], weights: &mut [u32], tally: &mut Tally)
    requires { Evaluating (up_to_three n) m.now w.now s.now weights.old tally.old }
    ensures { (weights.new ≡ subset_weights (up_to_three n) (entry m.now n) (entry w.now n) s.now)
        × (counted tally.new ≡ evaluation_tally (order (up_to_three n)) (counted tally.old)) }
{
    let old = *tally;
    *tally = evaluated(n, m, w, s, weights, old);
}
