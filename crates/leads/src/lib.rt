// What a job that leads another in the first plan tells of a state.

#![tactic(auto)]

ghost use Rattle.std.specs.Prelude.{◌<◌};
ghost use Rattle.cells.specs.View.{Prunes};
ghost use Rattle.lent.specs.Lent.{Lent};
ghost use Rattle.leads.specs.Led.{Led};

use cells::State;
use lent::Tables;

// m is inside: so is n, and it starts no earlier.
fn joins(s: &mut State, m: usize, n: usize)
    requires { (m < 24) × (n < 24) }
    ensures { Prunes (Led m n) s.old s.new }
{
    if !cells::inside(s, m) {
        return;
    }
    cells::put_inside(s, n);
    let x = cells::lo(s, m);
    if cells::lo(s, n) < x {
        cells::put_lo(s, n, x);
    }
}

// n is out: so is m.
fn leaves(s: &mut State, m: usize, n: usize)
    requires { (m < 24) × (n < 24) }
    ensures { Prunes (Led m n) s.old s.new }
{
    if cells::barred(s, n) {
        cells::put_barred(s, m);
    }
}

// All of it: n is not over before m either, and m starts no later than n may.
fn lead(s: &mut State, m: usize, n: usize)
    requires { (m < 24) × (n < 24) }
    ensures { Prunes (Led m n) s.old s.new }
{
    joins(s, m, n);
    leaves(s, m, n);
    orders::till(s, m, cells::hi(s, n));
    cells::put_never(s, n, m);
}

// The same of job m and the one that it leads, if it leads one: the lent table has 24 for none.
fn lead_one(s: &mut State, m: usize, t: &Tables)
    requires { m < 24 }
    ensures { Prunes (Lent t.now) s.old s.new }
{
    let n = lent::led(t, m);
    if n < 24 {
        lead(s, m, n);
    }
}

// The same of every job.
pub fn all_led(s: &mut State, t: &Tables)
    ensures { Prunes (Lent t.now) s.old s.new }
{
    for m in 0..24 {
        lead_one(s, m, t);
    }
}
