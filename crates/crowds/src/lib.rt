// Jobs that exclude each other and have no room one beside the other.

#![tactic(auto)]

ghost use Rattle.std.specs.Prelude.{◌≡◌, true, ◌≤◌, ◌<◌};
ghost use Rattle.cells.specs.View.{Prunes, Says};
ghost use Rattle.lent.specs.Lent.{Lent};
ghost use Rattle.crowds.specs.Heaps.{StartsFrom, GroupClash, Joins, Heaps, StandsBeside, AllAfter, Heaped, Trusted, GroupsOf};

use cells::State;
use groups::Groups;
use lent::Tables;

// The jobs of groups, each group's jobs, how long it keeps the others away, and the groups by their latest ends, 24 behind the last.
#[derive(Clone, Copy)]
pub struct Crowd {
    pub jobs: u32,
    pub words: [u32; 24],
    pub long: [u32; 24],
    pub order: [usize; 24],
    pub most: u32,
}

// Groups of a crowd from a time on: their jobs, what they take together, and when the last is gone.
#[derive(Clone, Copy)]
pub struct Heap {
    pub from: u32,
    pub members: u32,
    pub sum: u64,
    pub till: u64,
}

// All jobs of a group start at the time or later.
fn late(s: &State, group: u32, from: u32) -> bool
    ensures { result ≡ true → StartsFrom s.now group from }
{
    jobs::each(group).all(|j| j < 24 && from <= cells::lo(s, j))
}

// All jobs of a group interfere with all of the word.
fn clash(t: &Tables, group: u32, w: u32) -> bool
    ensures { result ≡ true → GroupClash t.now group w }
{
    jobs::each(group).all(|j| j < 24 && jobs::within(w, lent::hits(t, j)))
}

// The group is one of the crowd w, starts late enough and excludes all jobs so far.
fn joins(s: &State, t: &Tables, w: u32, group: u32, h: Heap) -> bool
    ensures { result ≡ true → Joins s.now t.now w group h }
{
    group != 0 && jobs::within(group, w) && late(s, group, h.from) && clash(t, group, h.members)
}

// The group of job j more, if it can come to the others.
fn join(s: &State, t: &Tables, c: Crowd, j: usize, h: Heap) -> Heap
    requires { j < 24 }
    ensures { Heaps s.now t.now c h result }
{
    let group = c.words[j];
    let x = c.long[j];
    if 65535 < x || 4000000 < h.sum || !joins(s, t, c.jobs, group, h) {
        return h;
    }
    let gone = cells::sum(keeps::latest(s, group), x);
    Heap {
        from: h.from,
        members: h.members | group,
        sum: h.sum + u64::from(x),
        till: h.till.max(gone),
    }
}

// Job k comes behind all of the heap, if it has room nowhere else.
fn last(s: &mut State, t: &Tables, w: u32, h: Heap, k: usize)
    requires { (k < 24) × (h.sum ≤ 5000000) }
    ensures { Prunes (StandsBeside t.now s.old w h k) s.old s.new }
{
    let low = u64::from(h.from.min(cells::lo(s, k)));
    let n = u64::from(lent::step(t, k));
    if h.till < low + (n + h.sum) {
        cells::put_sures(s, k, h.members);
    }
}

// Job k is over before all jobs of the word.
fn ahead_all(s: &mut State, k: usize, w: u32)
    requires { k < 24 }
    ensures { Says (AllAfter w k) s.old s.new }
{
    for a in jobs::each(w) {
        if a < 24 {
            cells::put_sure(s, k, a);
        }
    }
}

// Job k comes before all of the heap, if it has room nowhere else.
fn first(s: &mut State, t: &Tables, w: u32, h: Heap, k: usize)
    requires { (k < 24) × (h.sum ≤ 5000000) }
    ensures { Prunes (StandsBeside t.now s.old w h k) s.old s.new }
{
    let n = lent::step(t, k);
    let high = h.till.max(cells::sum(cells::hi(s, k), n));
    if high < u64::from(h.from) + (u64::from(n) + h.sum) {
        ahead_all(s, k, h.members);
    }
}

// Job k waits for all of the heap, if they surely come before it.
fn after(s: &mut State, t: &Tables, w: u32, h: Heap, k: usize)
    requires { (k < 24) × (h.sum ≤ 5000000) }
    ensures { Prunes (StandsBeside t.now s.old w h k) s.old s.new }
{
    if h.sum != 0 && jobs::within(h.members, cells::row_sure(s, k)) {
        orders::from(s, k, u64::from(h.from) + h.sum);
    }
}

// All three for a job of the crowd that interferes with all of the heap.
fn beside(s: &mut State, t: &Tables, w: u32, h: Heap, k: usize)
    requires { h.sum ≤ 5000000 }
    ensures { Prunes (Heaped t.now s.old w h) s.old s.new }
{
    if 24 <= k || !jobs::has(w, k) || !jobs::within(h.members, lent::hits(t, k)) {
        return;
    }
    last(s, t, w, h, k);
    first(s, t, w, h, k);
    after(s, t, w, h, k);
}

// The same for every job of the crowd beside the heap.
fn beside_all(s: &mut State, t: &Tables, w: u32, h: Heap)
    requires { h.sum ≤ 5000000 }
    ensures { Prunes (Heaped t.now s.old w h) s.old s.new }
{
    for k in jobs::each(jobs::outside(w, h.members)) {
        beside(s, t, w, h, k);
    }
}

// The same, if the heap leaves less room than `most`, which saves work.
fn beside_if(s: &mut State, t: &Tables, w: u32, h: Heap, most: u32)
    requires { h.sum ≤ 5000000 }
    ensures { Prunes (Heaped t.now s.old w h) s.old s.new }
{
    if h.till < cells::sum(h.from, most) + h.sum {
        beside_all(s, t, w, h);
    }
}

// m, if the words differ. Any number is right.
fn room(old: u32, new: u32, m: u32) -> u32 {
    if old == new { 0 } else { m }
}

// What the groups of the crowd from this time on leave no room for; whether they have none themselves. Any answer is right.
fn full_from(s: &mut State, t: &Tables, c: Crowd, from: u32) -> bool
    ensures { Prunes (Trusted t.now s.old c) s.old s.new }
{
    let mut h = Heap {
        from,
        members: 0,
        sum: 0,
        till: u64::from(from),
    };
    for j in c.order {
        if 24 <= j {
            return false;
        }
        let old = h.members;
        h = join(s, t, c, j, h);
        if h.till < u64::from(from) + h.sum {
            cells::kill(s);
            return true;
        }
        beside_if(s, t, c.jobs, h, room(old, h.members, c.most));
    }
    false
}

// The same, if it is another time than the last.
fn full_at(s: &mut State, t: &Tables, c: Crowd, from: u32, last: Option<u32>) -> bool
    ensures { Prunes (Trusted t.now s.old c) s.old s.new }
{
    last != Some(from) && full_from(s, t, c, from)
}

// How long the longest job of the word takes.
fn longest(t: &Tables, w: u32) -> u32 {
    jobs::each(w)
        .filter(|&j| j < 24)
        .map(|j| lent::step(t, j))
        .max()
        .unwrap_or(0)
}

// The earliest start of job i. Any time is right.
fn earliest(s: &State, i: usize) -> u32 {
    if i < 24 { cells::lo(s, i) } else { 0 }
}

// The groups with these jobs have no room one beside the other.
fn overfull(s: &mut State, t: &Tables, g: Groups, w: u32) -> bool
    ensures { Prunes (GroupsOf t.now s.old g) s.old s.new }
{
    let words = g.words;
    let long = keeps::lengths(s, t, w, words);
    let gone = keeps::ends(s, words, long);
    let order = keeps::by_end(gone, w);
    let c = Crowd {
        jobs: w,
        words,
        long,
        order,
        most: longest(t, w),
    };
    let mut last = None;
    for i in jobs::each(w) {
        let from = earliest(s, i);
        if full_at(s, t, c, from, last) {
            return true;
        }
        last = Some(from);
    }
    false
}

// The group of job j more, if it interferes with all of the word.
fn more(t: &Tables, g: Groups, w: u32, j: usize) -> u32 {
    if 24 <= j || !clash(t, g.words[j], w) {
        return w;
    }
    w | g.words[j]
}

// The jobs of groups that exclude each other, that of job i among them. Any word is right.
fn gather(t: &Tables, g: Groups, i: usize) -> u32 {
    if 24 <= i {
        return 0;
    }
    let mut w = g.words[i];
    if w == 0 {
        return 0;
    }
    for j in jobs::each(g.used & lent::hits(t, i)) {
        w = more(t, g, w, j);
    }
    w
}

// The groups with these jobs have no room, if there are two and they are others than the last.
fn tells(s: &mut State, t: &Tables, g: Groups, w: u32, last: u32) -> bool
    ensures { Prunes (GroupsOf t.now s.old g) s.old s.new }
{
    2 <= w.count_ones() && w != last && overfull(s, t, g, w)
}

// Some groups that exclude each other have no room, one of them that of a job of the word.
fn some_full(s: &mut State, t: &Tables, g: Groups, first: u32) -> bool
    ensures { Prunes (GroupsOf t.now s.old g) s.old s.new }
{
    let mut last: u32 = 0;
    for i in jobs::each(first) {
        let w = gather(t, g, i);
        if tells(s, t, g, w, last) {
            return true;
        }
        last = w;
    }
    false
}

// What jobs that exclude each other leave no room for: jobs inside, and with them one of several each; whether they have none themselves.
pub fn crowded(s: &mut State, t: &Tables) -> bool
    ensures { Prunes (Lent t.now) s.old s.new }
{
    let inside = cells::insides(s);
    let a = groups::alone(s);
    if some_full(s, t, a, inside) {
        return true;
    }
    let g = groups::words_of(s, t);
    some_full(s, t, g, jobs::outside(g.used, inside))
}
