// Opening facts from a bench reading: which marks it reaches.

#![tactic(auto)]

ghost use Rattle.std.specs.Prelude.{◌≡◌, not, ◌&&◌, ◌||◌, ◌<◌, ◌≤◌, ltb};
ghost use Rattle.facts.specs.Facts.{has};
ghost use Rattle.facts.specs.Words.{Word};
ghost use Rattle.facts.specs.Tests.{some_least};
ghost use Rattle.refusals.specs.Refusals.{accepted};
ghost use Rattle.readings.specs.Marks.{marks_of, bad, on_channel, reached, missed, marked, met};
ghost use Rattle.readings.specs.Lent.{marks_in, Readable};
ghost use Rattle.readings.specs.Opening.{opened, word_of, mark_checks, opening_answer, Opens};

// What the probe sends: degrees and per cent.
#[repr(C)]
#[derive(Clone, Copy)]
pub struct BenchReading {
    pub temperature: f64,
    pub humidity: f64,
}

// A mark: channel 0 is temperature, 1 humidity; the level is in tenths.
#[derive(Clone, Copy)]
pub struct Mark {
    pub channel: u8,
    pub level: i16,
    pub fact: u8,
}

// Number, second number and place are 0 on success; on refusal the facts are as given.
#[repr(C)]
#[derive(Clone, Copy)]
pub struct Opening {
    pub number: u8,
    pub second: u8,
    pub place: u16,
    pub facts: u64,
}

// What comes back: on success the facts opened, on refusal those given.
fn answered(number: u8, place: u16, facts: u64) -> Opening
    ensures { result ≡ record { number = number; second = 0; place = place; facts = facts } }
{
    Opening {
        number,
        second: 0,
        place,
        facts,
    }
}

// The tenths of a reading in range.
#[derive(Clone, Copy)]
struct Tenths {
    temperature: i16,
    humidity: i16,
}

impl Tenths {
    // The tenths of a channel.
    fn on(self, channel: u8) -> i16
        ensures { result ≡ on_channel self.temperature self.humidity channel }
    {
        if channel == 0 {
            self.temperature
        } else {
            self.humidity
        }
    }
}

impl Mark {
    // Its channel, its level or its fact is out of range.
    fn is_bad(self) -> bool
        ensures { result ≡ bad self }
    {
        self.channel > 1 || self.level < -1000 || self.level > 1000 || self.fact >= 64
    }

    // The tenths are at or above its level.
    fn is_reached(self, tenths: Tenths) -> bool
        ensures { result ≡ reached tenths.temperature tenths.humidity self }
    {
        self.level <= tenths.on(self.channel)
    }

    // The facts of w, but its own where it is missed.
    fn clear_if_missed(self, w: u64, tenths: Tenths) -> u64
        requires { self.fact < 64 }
        ensures { Word (λ p. has w p && not (missed tenths.temperature tenths.humidity p self)) result }
    {
        if self.is_reached(tenths) {
            return w;
        }
        facts::without(w, usize::from(self.fact))
    }
}

// The marks as they are lent: side by side in three tables, the first `count` of each.
#[derive(Clone, Copy)]
struct MarkTables<'a> {
    channels: &'a [u8],
    levels: &'a [i16],
    facts: &'a [u8],
    count: usize,
}

impl<'a> MarkTables<'a> {
    // A table is shorter than the count.
    fn is_short(self) -> bool
        ensures { result ≡ ltb (marks_in self.entry).room self.entry.count }
    {
        self.channels.len() < self.count
            || self.levels.len() < self.count
            || self.facts.len() < self.count
    }

    // Mark i.
    fn at(self, i: usize) -> Mark
        requires { i < (marks_in self).room }
        ensures { result ≡ (marks_in self.entry).mark i }
    {
        Mark {
            channel: self.channels[i],
            level: self.levels[i],
            fact: self.facts[i],
        }
    }

    // The lowest mark out of range.
    fn first_bad(self) -> Option<usize>
        requires { self.count ≤ (marks_in self).room }
        ensures { result ≡ some_least (λ i. bad ((marks_in self.entry).mark i)) self.entry.count }
    {
        facts::first(self.count, |i| self.at(i).is_bad())
    }

    // The facts given, with every marked fact set.
    fn with_marked(self, given: u64) -> u64
        requires { Readable (marks_in self) }
        ensures { Word (λ p. has given p || marked (marks_in self.entry) p) result }
    {
        let mut w = given;
        for i in 0..self.count {
            w = facts::with(w, usize::from(self.at(i).fact));
        }
        w
    }

    // The facts of w but those that a mark misses.
    fn without_missed(self, w: u64, tenths: Tenths) -> u64
        requires { Readable (marks_in self) }
        ensures { Word (λ p. has w p && met tenths.temperature tenths.humidity (marks_in self.entry) p) result }
    {
        let mut left = w;
        for i in 0..self.count {
            left = self.at(i).clear_if_missed(left, tenths);
        }
        left
    }

    // Behind the other checks: the lowest mark out of range, or the facts opened.
    fn open(self, tenths: Tenths, given: u64) -> Opening
        requires { (self.count ≤ 16) × (self.count ≤ (marks_in self).room) }
        ensures { result ≡ opening_answer (mark_checks (marks_in self.entry) accepted) (word_of (opened tenths.temperature tenths.humidity (marks_in self.entry) given) 64) given }
    {
        if let Some(i) = self.first_bad() {
            return answered(18, i as u16, given);
        }
        answered(0, 0, self.without_missed(self.with_marked(given), tenths))
    }
}

// Opening facts from a reading. The marks stand side by side in the three tables, the first `count` of each.
#[tactic(auto, unfolding(crate::specs::Opening::opening_checks, refusals::specs::Refusals::refuse_if))]
pub fn opening_facts(
    reading: BenchReading,
    channels: &[u8],
    levels: &[i16],
    facts: &[u8],
    count: usize,
    given: u64,
) -> Opening
    ensures { Opens reading (marks_of channels.now levels.now facts.now count) given result }
{
    let marks = MarkTables {
        channels,
        levels,
        facts,
        count,
    };
    if marks.is_short() {
        return answered(3, 0, given);
    }
    let temperature = tenths::measure(reading.temperature);
    if !temperature.in_range {
        return answered(17, 0, given);
    }
    let humidity = tenths::measure(reading.humidity);
    if !humidity.in_range {
        return answered(17, 1, given);
    }
    if count > 16 {
        return answered(18, 16, given);
    }
    let tenths = Tenths {
        temperature: temperature.tenths,
        humidity: humidity.tenths,
    };
    marks.open(tenths, given)
}
