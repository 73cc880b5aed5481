// The search: the flaw picker and the repair trier.

#![tactic(auto)]

ghost use Rattle.lent.specs.Lent.{Lent};
ghost use Rattle.leaves.specs.Leaf.{Resolves, AtRest, SettledBy};
ghost use Rattle.flaws.specs.Flaw.{Free};
ghost use Rattle.search.specs.Search.{Some, Tries, FirstRepair, SecondRepair};

use cells::State;
use flaws::{Choice, Repair};
use lent::Tables;

// The first repair: the job is in, or x is over before y.
fn taken(s: &mut State, r: Repair)
    requires { Free s.old r }
    ensures { Tries (FirstRepair r) s.old s.new }
{
    match r {
        Repair::Job(x) => cells::put_inside(s, x),
        Repair::Pair(x, y) => {
            cells::put_inside(s, x);
            cells::put_sure(s, x, y);
        }
    }
}

// The second repair: the job is out, or x is not over before y.
fn dropped(s: &mut State, r: Repair)
    requires { Free s.old r }
    ensures { Tries (SecondRepair r) s.old s.new }
{
    match r {
        Repair::Job(x) => cells::put_barred(s, x),
        Repair::Pair(x, y) => cells::put_never(s, x, y),
    }
}

// The state pruned and settled, the first plan kept; false where it is not left. Called in several places, so that it is not taken into the recursion.
pub fn pruned(s: &mut State, t: &Tables) -> bool
    ensures { SettledBy t.now s.old s.new result }
{
    prune::tighten(s, t);
    !orders::broken(s) && leaves::settle(s, t)
}

// A plan that stays in the pruned state, or that there is none: a flaw is picked.
#[cycle(attempt_pick)]
fn pick(s: &mut State, alive: bool, t: &Tables, out: &mut [u16; 24]) -> bool
    requires { AtRest t.now s.old alive × Some (Lent t.now) }
    ensures { Resolves (Lent t.now) s.old out.old out.new result }
{
    if !alive {
        return false;
    }
    match flaws::flaw(s, t) {
        Choice::Fine => leaves::leaf(s, t, out),
        Choice::Lost => false,
        Choice::Open(r) => attempt(s, r, t, out),
    }
}

// Its repairs are tried in turn, the first on a copy.
#[cycle(attempt_pick)]
fn attempt(s: &mut State, r: Repair, t: &Tables, out: &mut [u16; 24]) -> bool
    requires { Free s.old r × Some (Lent t.now) }
    ensures { Resolves (Lent t.now) s.old out.old out.new result }
{
    let mut u = *s;
    taken(&mut u, r);
    let alive = pruned(&mut u, t);
    if pick(&mut u, alive, t, out) {
        return true;
    }
    dropped(s, r);
    let left = pruned(s, t);
    pick(s, left, t, out)
}

// A plan that stays in the state, or that there is none.
pub fn find_plan(s: &mut State, t: &Tables, out: &mut [u16; 24]) -> bool
    requires { Some (Lent t.now) }
    ensures { Resolves (Lent t.now) s.old out.old out.new result }
{
    let alive = pruned(s, t);
    pick(s, alive, t, out)
}
