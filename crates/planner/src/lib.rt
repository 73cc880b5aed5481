// The first plan, job by job.

#![tactic(auto)]

ghost use Rattle.std.specs.Prelude.{◌≡◌, ◌+◌, ◌≤◌, ◌<◌, length};
ghost use Rattle.cells.specs.View.{view, Prunes};
ghost use Rattle.lent.specs.Lent.{Lent, count_of};
ghost use Rattle.leaves.specs.Leaf.{plan_of};
ghost use Rattle.search.specs.Search.{Some};
ghost use Rattle.planner.specs.Planner.{BeginsSo, Tells, Without, Earlier, Lowered, LowerOk, Fixed, FirstPlanIs};

use cells::State;
use lent::Tables;

// The start of job k.
fn start_of(out: &[u16; 24], k: usize) -> u16
    requires { (k < 24) × (length out.now ≡ 24) }
    ensures { result ≡ plan_of out.now k }
{
    out[k]
}

// A plan without job k; none where it is known to be in.
fn try_without(base: &State, k: usize, t: &Tables, out: &mut [u16; 24]) -> bool
    requires { (k < 24) × Some (Lent t.now) }
    ensures { Tells (Lent t.now) base.now (Without k) out.old out.new result }
{
    if cells::inside(base, k) {
        return false;
    }
    let mut s = *base;
    cells::put_barred(&mut s, k);
    search::find_plan(&mut s, t, out)
}

// A plan with job k sooner than it is; none where it is as early as it can be.
fn try_sooner(base: &State, k: usize, t: &Tables, out: &mut [u16; 24]) -> bool
    requires { (k < 24) × (length out.old ≡ 24) × Some (Lent t.now) }
    ensures { Tells (Lent t.now) base.now (Earlier k (plan_of out.old k)) out.old out.new result }
{
    let x = u32::from(start_of(out, k));
    if x <= cells::lo(base, k) {
        return false;
    }
    let mut s = *base;
    cells::put_inside(&mut s, k);
    orders::till(&mut s, k, x - 1);
    search::find_plan(&mut s, t, out)
}

// The earliest start of k.
fn lower(base: &State, k: usize, t: &Tables, out: &mut [u16; 24])
    requires { LowerOk (Lent t.now) base.now k out.old × (k < 24) × Some (Lent t.now) }
    ensures { Lowered (Lent t.now) base.now k out.new }
{
    while try_sooner(base, k, t, out) {}
}

// Job k starts at x.
fn fix(base: &mut State, k: usize, x: u32)
    requires { (k < 24) × ((view base.old).lo k ≤ x) × (x ≤ (view base.old).hi k) }
    ensures { Fixed base.old k x base.new }
{
    cells::put_inside(base, k);
    cells::put_lo(base, k, x);
    cells::put_hi(base, k, x);
}

// The base pruned, where it does not say yet that job k is in and no sooner than x.
fn sharpen(base: &mut State, k: usize, t: &Tables, x: u32)
    requires { k < 24 }
    ensures { Prunes (Lent t.now) base.old base.new }
{
    if cells::inside(base, k) && x <= cells::lo(base, k) {
        return;
    }
    search::pruned(base, t);
}

// Job k is settled.
fn settle_job(base: &mut State, k: usize, t: &Tables, out: &mut [u16; 24])
    requires { BeginsSo (Lent t.now) k base.old out.old × (k < 24) × (k < count_of t.now) × Some (Lent t.now) }
    ensures { BeginsSo (Lent t.now) (k + 1) base.new out.new }
{
    let x = start_of(out, k);
    if x == 65535 {
        cells::put_barred(base, k);
        return;
    }
    sharpen(base, k, t, u32::from(x));
    if try_without(base, k, t, out) {
        cells::put_barred(base, k);
        return;
    }
    lower(base, k, t, out);
    fix(base, k, u32::from(start_of(out, k)));
}

// The first plan, from a state that it fits and some plan.
pub fn first(root: &mut State, t: &Tables, out: &mut [u16; 24])
    requires { BeginsSo (Lent t.now) 0 root.old out.old × Some (Lent t.now) }
    ensures { FirstPlanIs (Lent t.now) out.new }
{
    let n = lent::count(t);
    for k in 0..n {
        settle_job(root, k, t, out);
    }
}
