// The least bound of a problem, with some plan within it: pruning alone, then doubling and halving.

#![tactic(auto)]

ghost use Rattle.std.specs.Prelude.{◌≡◌, ◌≤◌, ◌<◌, length};
ghost use Rattle.rules.specs.Table.{Problem};
ghost use Rattle.lent.specs.Lent.{Listed};
ghost use Rattle.leaves.specs.Leaf.{plan_of};
ghost use Rattle.bounds.specs.Bounds.{Served, NoneBelow, AnyAt, Hopeless, Later, LastEnd, Probes, LowEnd, Bracketed, Rises, Halves, Narrows, LeastWith};

use lent::Tables;

// A range of bounds that holds the least.
#[derive(Clone, Copy)]
pub struct Range {
    pub low: u16,
    pub high: u16,
}

// A valid plan within the bound.
pub fn any_at(t: &mut Tables, bound: u16, out: &mut [u16; 24]) -> bool
    requires { Served t.old bound }
    ensures { AnyAt t.old bound out.old t.new out.new result }
{
    lent::put_bound(t, u32::from(bound));
    let mut s = outset::root(t);
    search::find_plan(&mut s, t, out)
}

// Pruning alone finds that there is no plan within the bound.
fn hopeless(t: &mut Tables, bound: u16) -> bool
    requires { Served t.old bound }
    ensures { Hopeless t.old bound t.new result }
{
    lent::put_bound(t, u32::from(bound));
    let mut s = outset::root(t);
    !search::pruned(&mut s, t)
}

// The later of an end and that of a job, if it is in: 65,535 is the mark of lent tables of starts.
fn later(start: u16, dur: u32, end: u64) -> u64
    ensures { Later start dur end result }
{
    if start == 65535 {
        end
    } else {
        cells::sum(u32::from(start), dur).max(end)
    }
}

// Where the last job ends.
fn last_end(t: &Tables, out: &[u16; 24]) -> u64
    requires { Served t.now 0 × (length out.now ≡ 24) }
    ensures { (P : Problem) → Listed t.now P → LastEnd P (plan_of out.now) P.count result }
{
    let mut end: u64 = 0;
    let n = lent::count(t);
    let gap = lent::gap(t);
    for j in 0..n {
        end = later(out[j], lent::step(t, j) - gap, end);
    }
    end
}

// The half of the range that holds the least bound that pruning leaves open.
fn probe(t: &mut Tables, low: u16, high: u16) -> Range
    requires { Served t.old high × (low < high) }
    ensures { Probes t.old low high t.new result }
{
    let mid = low + (high - low) / 2;
    if hopeless(t, mid) {
        return Range { low: mid + 1, high };
    }
    Range { low, high: mid }
}

// The least bound up to top that pruning leaves open.
fn low_end(t: &mut Tables, top: u16) -> u16
    requires { Served t.old top }
    ensures { LowEnd t.old top t.new result }
{
    let mut low: u16 = 0;
    let mut high = top;
    while low < high {
        let r = probe(t, low, high);
        low = r.low;
        high = r.high;
    }
    low
}

// The bound to be tried after one that has no plan: twice as far from the low end.
fn next(at: u16, low: u16, top: u16) -> u16
    requires { (low ≤ at) × (at < top) }
    ensures { (at < result) × (result ≤ top) }
{
    at + (at - low + 1).min(top - at)
}

// A range that holds the least bound, with a plan within its high end; none where there is no plan within top.
fn rise(t: &mut Tables, low: u16, top: u16, out: &mut [u16; 24]) -> Option<Range>
    requires { Served t.old top × (low ≤ top) × NoneBelow t.old low }
    ensures { Rises t.old top t.new out.new result }
{
    let mut from = low;
    let mut at = low;
    loop {
        if any_at(t, at, out) {
            return Some(Range {
                low: from,
                high: last_end(t, out) as u16,
            });
        }
        if at == top {
            return None;
        }
        from = at + 1;
        at = next(at, low, top);
    }
}

// The half of the range that holds the least bound.
fn halve(t: &mut Tables, low: u16, high: u16, out: &mut [u16; 24]) -> Range
    requires { Served t.old high × Bracketed t.old low high out.old × (low < high) }
    ensures { Halves t.old low high t.new out.new result }
{
    let mid = low + (high - low) / 2;
    if !any_at(t, mid, out) {
        return Range { low: mid + 1, high };
    }
    let end = last_end(t, out);
    Range {
        low,
        high: end as u16,
    }
}

// The least bound of a range, with a plan within it.
fn narrow(t: &mut Tables, from: u16, top: u16, out: &mut [u16; 24]) -> u16
    requires { Served t.old top × Bracketed t.old from top out.old }
    ensures { Narrows t.old top t.new out.new result }
{
    let mut low = from;
    let mut high = top;
    while low < high {
        let r = halve(t, low, high, out);
        low = r.low;
        high = r.high;
    }
    low
}

// The least bound up to top, with a plan within it; none where there is none.
pub fn least(t: &mut Tables, top: u16, out: &mut [u16; 24]) -> Option<u16>
    requires { Served t.old top }
    ensures { LeastWith t.old top t.new out.new result }
{
    let low = low_end(t, top);
    match rise(t, low, top, out) {
        Some(r) => Some(narrow(t, r.low, r.high, out)),
        None => None,
    }
}
