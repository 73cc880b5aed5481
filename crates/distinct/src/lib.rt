// Jobs whose supports for a fact are different: there must be as many.

#![tactic(auto)]

ghost use Rattle.std.specs.Prelude.{◌≡◌, true, ◌<◌};
ghost use Rattle.states.specs.State.{Search};
ghost use Rattle.cells.specs.View.{view, Prunes};
ghost use Rattle.lent.specs.Lent.{Lent};
ghost use Rattle.distinct.specs.Rivals.{WithPin, RivalWord, Rivals, Givers, Wanting, Banded, AllMust};

use cells::State;
use lent::Tables;

// Jobs that want the fact, each of another support, and the jobs that could come to them.
#[derive(Clone, Copy)]
pub struct Band {
    pub members: u32,
    pub common: u32,
}

// The jobs of w, and those that delete q if every job that adds q is one of kills.
fn with_pin(t: &Tables, w: u32, q: usize, kills: u32) -> u32
    ensures { WithPin t.now w q kills result }
{
    if 64 <= q || !jobs::within(lent::adders(t, q), kills) {
        return w;
    }
    w | lent::killers(t, q)
}

// The jobs behind which c wants another support for the fact that the jobs of kills delete.
fn parted(t: &Tables, c: usize, kills: u32) -> u32
    requires { c < 24 }
    ensures { RivalWord t.now c kills result }
{
    let mut w = kills;
    for q in facts::each(lent::wants(t, c)) {
        w = with_pin(t, w, q, kills);
    }
    w & lent::hits(t, c)
}

// Job j is inside, wants the fact p and could come to the members.
fn fits(s: &State, t: &Tables, p: usize, common: u32, j: usize) -> bool
    requires { (p < 64) × (j < 24) }
    ensures { result ≡ true → Wanting s.now t.now p common j }
{
    jobs::has(common, j) && cells::inside(s, j) && facts::has(lent::wants(t, j), p)
}

// Job j more, if it has another support for the fact p than all members.
fn join(s: &State, t: &Tables, p: usize, b: Band, j: usize) -> Band
    requires { p < 64 }
    ensures { (P : Search) → Lent t.now P → Banded P s.now p b → Banded P s.now p result }
{
    if 24 <= j || !fits(s, t, p, b.common, j) {
        return b;
    }
    let w = parted(t, j, lent::killers(t, p));
    if !jobs::within(b.members, w) {
        return b;
    }
    Band {
        members: jobs::with(b.members, j),
        common: b.common & w,
    }
}

// Jobs that want the fact p, each of another support, job i first.
fn gather(s: &State, t: &Tables, p: usize, i: usize) -> u32
    requires { p < 64 }
    ensures { (P : Search) → Lent t.now P → Rivals P (view s.now) p result }
{
    let none = Band {
        members: 0,
        common: u32::MAX,
    };
    let mut b = join(s, t, p, none, i);
    for j in jobs::each(b.common & cells::insides(s)) {
        b = join(s, t, p, b, j);
    }
    b.members
}

// The jobs that may support the fact p, with bit 24 for Start.
fn givers(s: &State, t: &Tables, p: usize) -> u32
    requires { p < 64 }
    ensures { (P : Search) → Lent t.now P → Givers P (view s.now) p result }
{
    let w = lent::adders(t, p) & !cells::outsides(s);
    if facts::has(lent::opening(t), p) {
        return w | (1 << 24);
    }
    w
}

// All jobs of the word are in.
fn enter_all(s: &mut State, w: u32)
    ensures { Prunes (AllMust s.old w) s.old s.new }
{
    for a in jobs::each(w) {
        if a < 24 {
            cells::put_inside(s, a);
        }
    }
}

// No plan is left where there are fewer supports than jobs that want their own; where there are as many, all are in.
fn claim(s: &mut State, t: &Tables, p: usize, i: usize)
    requires { p < 64 }
    ensures { Prunes (Lent t.now) s.old s.new }
{
    let w = givers(s, t, p);
    let m = gather(s, t, p, i).count_ones();
    let n = w.count_ones();
    if n < m {
        cells::kill(s);
    } else if n == m {
        enter_all(s, w);
    }
}

// The jobs inside that want the fact p.
fn takers(s: &State, t: &Tables, p: usize) -> u32
    requires { p < 64 }
{
    let mut w: u32 = 0;
    for j in jobs::each(cells::insides(s)) {
        if j < 24 {
            w = jobs::with_if(w, j, facts::has(lent::wants(t, j), p));
        }
    }
    w
}

// The same for every job that wants the fact p, where there are as many as supports.
fn claims(s: &mut State, t: &Tables, p: usize)
    ensures { Prunes (Lent t.now) s.old s.new }
{
    if 64 <= p {
        return;
    }
    let w = takers(s, t, p);
    if w.count_ones() < givers(s, t, p).count_ones() {
        return;
    }
    for i in jobs::each(w) {
        claim(s, t, p, i);
    }
}

// The facts that two jobs inside want; any word is right.
fn wanted_twice(s: &State, t: &Tables) -> u64 {
    let mut once: u64 = 0;
    let mut twice: u64 = 0;
    for j in jobs::each(cells::insides(s)) {
        if j < 24 {
            let c = lent::wants(t, j);
            twice |= once & c;
            once |= c;
        }
    }
    twice
}

// The same for every fact.
pub fn distinct(s: &mut State, t: &Tables)
    ensures { Prunes (Lent t.now) s.old s.new }
{
    for p in facts::each(wanted_twice(s, t)) {
        claims(s, t, p);
    }
}
