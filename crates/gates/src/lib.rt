// The gates of planning, and the two types that only this crate looks into: a secret and the tally. In service a secret is a word that is shared,
// and the gates run among the peers; here they do their work on plain words. Each gate counts itself, and nothing else raises the tally. What runs
// in a gate is the same whatever its secrets are. Nothing here opens a secret: `store_u32` puts one into a lent table, in service a share.
#![tactic(auto)]

ghost use Rattle.std.specs.Prelude.{◌≡◌, cond, [], ◌∷◌, ◌+◌, ◌-◌, ◌*◌, ◌^◌, ◌<◌, ◌≤◌, eqb, ltb, length, get_or, set};
ghost use Rattle.laws.specs.Below.{one};
ghost use Rattle.greedy.specs.Tally.{next_round, tally};
ghost use Rattle.greedy.specs.Places.{among};
ghost use Rattle.gates.specs.Counts.{tally_of};
ghost use Rattle.gates.specs.Counting.{counted, TallyRoom, Raised};
ghost use Rattle.gates.specs.Secrets.{value_of};

// A secret: an entry of M or W, a weight, a choice's number or one of its places, or what gates make of them.
#[derive(Clone, Copy)]
pub struct Secret {
    value: u32,
}

// "Tally": what the gates did.
#[derive(Clone, Copy)]
pub struct Tally {
    comparisons: u64,
    products: u64,
    rounds: u64,
}

// The counts of a tally, for a result. No gate takes them.
#[derive(Clone, Copy)]
pub struct Counts {
    pub comparisons: u64,
    pub products: u64,
    pub rounds: u64,
}

// What a gate gives, or a step made of gates, and the tally after it.
#[derive(Clone, Copy)]
pub struct Gated<T> {
    pub value: T,
    pub tally: Tally,
}

// A choice's places, n where there is none.
#[derive(Clone, Copy)]
pub struct SecretPlaces {
    pub u: Secret,
    pub v: Secret,
    pub w: Secret,
}

// ## The gates

// One product more.
fn product_counted(t: Tally) -> Tally
    requires { TallyRoom 0 1 t }
    ensures { Raised 0 1 t result }
{
    Tally {
        comparisons: t.comparisons,
        products: t.products + 1,
        rounds: t.rounds,
    }
}

pub fn product(a: Secret, b: Secret, t: Tally) -> Gated<Secret>
    requires { (value_of a * value_of b < 2 ^ 32) × TallyRoom 0 1 t }
    ensures { (value_of result.value ≡ value_of a * value_of b) × Raised 0 1 t result.tally }
{
    let counted = product_counted(t);
    let made = Secret {
        value: a.value * b.value,
    };
    Gated {
        value: made,
        tally: counted,
    }
}

// 1 where a is less than b, else 0.
pub fn comparison(a: Secret, b: Secret, t: Tally) -> Gated<Secret>
    requires { TallyRoom 1 0 t }
    ensures { (value_of result.value ≡ one (ltb (value_of a) (value_of b))) × Raised 1 0 t result.tally × (value_of result.value ≤ 1) }
{
    let counted = Tally {
        comparisons: t.comparisons + 1,
        products: t.products,
        rounds: t.rounds,
    };
    let made = Secret {
        value: (a.value < b.value) as u32,
    };
    Gated {
        value: made,
        tally: counted,
    }
}

// a where the bit is 1, b where it is 0: one product, bit × (a − b) + b, as the paper has it.
pub fn pick(bit: Secret, a: Secret, b: Secret, t: Tally) -> Gated<Secret>
    requires { (value_of bit ≤ 1) × TallyRoom 0 1 t }
    ensures { (value_of result.value ≡ cond (eqb (value_of bit) 1) (value_of a) (value_of b)) × Raised 0 1 t result.tally }
{
    let counted = product_counted(t);
    let difference = a.value as i64 - b.value as i64;
    let picked = bit.value as i64 * difference + b.value as i64;
    let made = Secret {
        value: picked as u32,
    };
    Gated {
        value: made,
        tally: counted,
    }
}

// ## What needs no gate

// A number that all know, as a secret.
pub fn known(x: usize) -> Secret
    requires { x < 2 ^ 32 }
    ensures { value_of result ≡ x }
{
    Secret { value: x as u32 }
}

pub fn sum(a: Secret, b: Secret) -> Secret
    requires { value_of a + value_of b < 2 ^ 32 }
    ensures { value_of result ≡ value_of a + value_of b }
{
    Secret {
        value: a.value + b.value,
    }
}

// The readout of the paper's DEMUX (Protocol 1, lines 22 to 26) at a public place: 1 − comb(p), where comb has a 1 at each place of the choice and
// a 0 elsewhere. Document 01 does not tally it, and only clearing asks it.
pub fn demux_readout(p: usize, choice: SecretPlaces) -> Secret
    ensures { value_of result ≡ 1 - one (among p (value_of choice.u ∷ value_of choice.v ∷ value_of choice.w ∷ [])) }
{
    let u = choice.u.value as usize;
    let v = choice.v.value as usize;
    let w = choice.w.value as usize;
    let comb = (p == u) | (p == v) | (p == w);
    Secret {
        value: 1 - comb as u32,
    }
}

// ## Lent tables: where a secret stands in one is public

// An entry, as the number that it is in 32 bits.
pub fn load<T: Copy + Into<u32>>(table: &[T], at: usize) -> Secret
    requires { at < length table.now }
    ensures { (x : T) → T.converts (get_or table.now at x) (value_of result) }
{
    Secret {
        value: table[at].into(),
    }
}

pub fn store_u32(table: &mut [u32], at: usize, x: Secret)
    requires { at < length table.old }
    ensures { table.new ≡ set table.old at (value_of x) }
{
    table[at] = x.value;
}

// ## The tally

// "It begins at 0."
pub fn nothing_done() -> Tally
    ensures { counted result ≡ tally 0 0 0 }
{
    Tally {
        comparisons: 0,
        products: 0,
        rounds: 0,
    }
}

// A round begins.
pub fn begin_round(t: Tally) -> Tally
    requires { t.rounds + 1 < 2 ^ 64 }
    ensures { counted result ≡ next_round (counted t) }
{
    Tally {
        comparisons: t.comparisons,
        products: t.products,
        rounds: t.rounds + 1,
    }
}

pub fn counts_of(t: Tally) -> Counts
    ensures { tally_of result ≡ counted t }
{
    Counts {
        comparisons: t.comparisons,
        products: t.products,
        rounds: t.rounds,
    }
}
