// Words of jobs of which one is in: a job inside alone, and all candidates for a condition.

#![tactic(auto)]

ghost use Rattle.std.specs.Prelude.{List, ℕ, ◌≤◌, ◌<◌, T};
ghost use Rattle.states.specs.State.{Search, there};
ghost use Rattle.cells.specs.View.{view};
ghost use Rattle.facts.specs.Facts.{has};
ghost use Rattle.lent.specs.Lent.{wants_of, Lent};
ghost use Rattle.lent.specs.Consumers.{who_at};
ghost use Rattle.groups.specs.OneOf.{OneIn, AllOneIn, Grows};

use cells::State;
use lent::Tables;
use std::array;

// Words of jobs of each of which one job is in, each at the place of its first job; `used` are the jobs of all.
#[derive(Clone, Copy)]
pub struct Groups {
    pub words: [u32; 24],
    pub used: u32,
}

// The jobs inside, each alone.
pub fn alone(s: &State) -> Groups
    ensures { (P : Search) → AllOneIn P s.now result.words 24 }
{
    Groups {
        words: array::from_fn(|j| jobs::with_if(0, j, cells::inside(s, j))),
        used: cells::insides(s),
    }
}

// The jobs of the word that are inside, and not surely too late for the consumer b. Any word is right; this one saves work.
fn ready(s: &State, b: usize, w: u32) -> u32
    requires { b ≤ 24 }
{
    let v = w & cells::insides(s);
    if b == 24 {
        return v;
    }
    jobs::outside(v, cells::row_never(s, b))
}

// All candidates for the fact p of the consumer b, if it is there and Start is none.
fn several(s: &State, t: &Tables, b: usize, p: usize) -> u32
    requires { (b ≤ 24) × (p < 64) }
    ensures { T (has (wants_of t.now b) p) → T (there (view s.now) (who_at b)) → (P : Search) → Lent t.now P → OneIn P s.now result }
{
    let adders = lent::adders(t, p);
    if ready(s, b, adders) != 0 {
        return 0;
    }
    let dang = supports::threats(s, b, lent::killers(t, p), true);
    if supports::may_start(t, p, dang) {
        return 0;
    }
    supports::cands(s, b, adders, dang)
}

// The same, if p is a condition of b.
fn condition(s: &State, t: &Tables, b: usize, p: usize) -> u32
    requires { b ≤ 24 }
    ensures { T (there (view s.now) (who_at b)) → (P : Search) → Lent t.now P → OneIn P s.now result }
{
    if 64 <= p || !facts::has(lent::wants(t, b), p) {
        return 0;
    }
    several(s, t, b, p)
}

// The word more, if no job of it is used.
fn noted(g: Groups, w: u32) -> Groups
    ensures { (P : Search) (s : List ℕ) → OneIn P s w → AllOneIn P s g.words 24 → AllOneIn P s result.words 24 }
{
    let j = jobs::lowest(w);
    if 24 <= j || w & g.used != 0 {
        return g;
    }
    let mut words = g.words;
    words[j] = w;
    Groups {
        words,
        used: g.used | w,
    }
}

// The words of the conditions of b, or of the goals, more, if b is there.
fn consumer(s: &State, t: &Tables, b: usize, g: Groups) -> Groups
    requires { b ≤ 24 }
    ensures { Grows s.now t.now g result }
{
    if !supports::there_for(s, b) {
        return g;
    }
    let mut x = g;
    for p in facts::each(lent::wants(t, b)) {
        x = noted(x, condition(s, t, b, p));
    }
    x
}

// The jobs inside, each alone, and the words of all consumers.
pub fn words_of(s: &State, t: &Tables) -> Groups
    ensures { (P : Search) → Lent t.now P → AllOneIn P s.now result.words 24 }
{
    let mut g = alone(s);
    for b in 0..25 {
        g = consumer(s, t, b, g);
    }
    g
}
