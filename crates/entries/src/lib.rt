// Entries of M and W, and the weight of a cycle by them, in the open: for the checks before planning's steps and for resolution after them, which are
// no gates. What a gate makes of them is in `evaluation`.
#![tactic(auto)]

ghost use Rattle.std.specs.Prelude.{◌≡◌, [], ◌∷◌, ◌*◌, ◌≤◌, ◌<◌, length};
ghost use Rattle.exchange.specs.Subsets.{entry};
ghost use Rattle.entries.specs.Preconditions.{weight_of, Pairs};

// M(i, j), in the open.
pub fn compatible(m: &[u8], n: usize, i: usize, j: usize) -> usize
    requires { (i < n) × (j < n) × (n ≤ 200) × (n * n ≤ length m.now) }
    ensures { result ≡ entry m.now n i j }
{
    usize::from(m[i * n + j])
}

// W(i, j), in the open.
pub fn points(w: &[u16], n: usize, i: usize, j: usize) -> usize
    requires { (i < n) × (j < n) × (n ≤ 200) × (n * n ≤ length w.now) }
    ensures { result ≡ entry w.now n i j }
{
    usize::from(w[i * n + j])
}

// The weight of a two's cycle.
pub fn two(m: &[u8], w: &[u16], n: usize, a: usize, b: usize) -> usize
    requires { Pairs n m.now w.now a b b }
    ensures { result ≡ weight_of n m.now w.now (a ∷ b ∷ []) }
{
    let there = compatible(m, n, a, b) * compatible(m, n, b, a);
    there * (points(w, n, a, b) + points(w, n, b, a))
}

// The weight of the cycle a → b → c → a.
pub fn three(m: &[u8], w: &[u16], n: usize, a: usize, b: usize, c: usize) -> usize
    requires { Pairs n m.now w.now a b c }
    ensures { result ≡ weight_of n m.now w.now (a ∷ b ∷ c ∷ []) }
{
    let there = compatible(m, n, a, b) * compatible(m, n, b, c);
    let all = there * compatible(m, n, c, a);
    let sum = points(w, n, a, b) + points(w, n, b, c);
    all * (sum + points(w, n, c, a))
}
