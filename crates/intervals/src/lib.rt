// Intervals, and what each operation makes of its operands' intervals.
#![tactic(auto)]

ghost use Rattle.std.specs.Prelude.{◌≡◌, pos, ◌*ℤ◌};
ghost use Rattle.numbers.specs.Whole as Whole;
ghost use Rattle.language.specs.Syntax as Syntax;
ghost use Rattle.language.specs.Meaning as Meaning;
ghost use Rattle.rules.specs.Bounds as Bounds;
ghost use Rattle.intervals.specs.Spans.{span, slot_of, interval_of, as_slot, opposite, repeated, Small, Narrow, IsNarrowed};

use std::ops::{Add, Mul, Neg, Sub};
use table::values_between;

// "Beyond ±2,000,000,000".
const LIMIT: i64 = 2_000_000_000;

// low..high. Ends of 32 bits hold every number within the limit.
#[derive(Clone, Copy, Debug, PartialEq, Eq)]
pub struct Interval {
    pub low: i32,
    pub high: i32,
}

// What an operation makes of intervals. Its ends may be beyond the limit, and fit 64 bits.
#[derive(Clone, Copy, Debug, PartialEq, Eq)]
pub struct Ends {
    pub low: i64,
    pub high: i64,
}

// A slot's range, which is empty where low is above high.
#[derive(Clone, Copy, Debug, PartialEq, Eq)]
pub struct Slot {
    pub low: i32,
    pub high: i32,
}

fn is_within(z: i64) -> bool
    ensures { result ≡ Whole.within_limit z }
{
    (-LIMIT..=LIMIT).contains(&z)
}

fn product(a: i32, b: i32) -> i64
    ensures { result ≡ a *ℤ b }
{
    i64::from(a) * i64::from(b)
}

impl Interval {
    pub const ZERO: Interval = Interval { low: 0, high: 0 };

    // z..z.
    #[tactic(auto, unfolding(rules::specs::Bounds::only))]
    pub fn only(z: i32) -> Interval
        ensures { interval_of result ≡ Bounds.only z }
    {
        Interval { low: z, high: z }
    }

    // The least interval that holds both.
    #[tactic(auto, using(crate::proofs::Spans::ends), unfolding(rules::specs::Bounds::hull))]
    pub fn hull(self, other: Interval) -> Interval
        ensures { interval_of result ≡ Bounds.hull (interval_of self) (interval_of other) }
    {
        Interval {
            low: self.low.min(other.low),
            high: self.high.max(other.high),
        }
    }

    #[tactic(auto, using(crate::proofs::Spans::ends), unfolding(rules::specs::Bounds::arith_interval))]
    pub fn min(self, other: Interval) -> Interval
        ensures { interval_of result ≡ Bounds.arith_interval Syntax.minimum (interval_of self) (interval_of other) }
    {
        Interval {
            low: self.low.min(other.low),
            high: self.high.min(other.high),
        }
    }

    // Kept: one function of a closure for hull, min and max would take two closures at each caller, and clauses on what they give: no plainer.
    #[tactic(auto, using(crate::proofs::Spans::ends), unfolding(rules::specs::Bounds::arith_interval))]
    pub fn max(self, other: Interval) -> Interval
        ensures { interval_of result ≡ Bounds.arith_interval Syntax.maximum (interval_of self) (interval_of other) }
    {
        Interval {
            low: self.low.max(other.low),
            high: self.high.max(other.high),
        }
    }

    // "−M..M with M the largest magnitude of the left operand", whatever the divisor.
    #[tactic(auto, unfolding(rules::specs::Bounds::divide_interval))]
    pub fn quotients(self) -> Ends
        ensures { (j : Bounds.Interval) → span result ≡ Bounds.divide_interval Syntax.quot (interval_of self) j }
    {
        Ends::around(self.largest())
    }

    // The divisor's: "−k..k with k = max(0, m−1)", m its largest magnitude, whatever the left operand.
    #[tactic(auto, unfolding(rules::specs::Bounds::divide_interval))]
    pub fn remainders(self) -> Ends
        ensures { (i : Bounds.Interval) → span result ≡ Bounds.divide_interval Syntax.rem i (interval_of self) }
    {
        Ends::around(self.largest().saturating_sub(1))
    }

    // The largest magnitude of an interval.
    #[tactic(auto, unfolding(rules::specs::Bounds::magnitude))]
    fn largest(self) -> u32
        ensures { result ≡ Bounds.magnitude (interval_of self) }
    {
        self.low.unsigned_abs().max(self.high.unsigned_abs())
    }
}

impl Ends {
    // z..z.
    #[tactic(auto, unfolding(rules::specs::Bounds::only))]
    pub fn only(z: i64) -> Ends
        ensures { span result ≡ Bounds.only z }
    {
        Ends { low: z, high: z }
    }

    // The least interval that holds both: from the minimum's lower end to the maximum's upper one.
    #[tactic(auto, unfolding(rules::specs::Bounds::hull, rules::specs::Bounds::arith_interval))]
    pub fn hull(self, other: Ends) -> Ends
        ensures { span result ≡ Bounds.hull (span self) (span other) }
    {
        Ends {
            low: self.min(other).low,
            high: self.max(other).high,
        }
    }

    #[tactic(auto, using(crate::proofs::Spans::ends), unfolding(rules::specs::Bounds::arith_interval))]
    pub fn min(self, other: Ends) -> Ends
        ensures { span result ≡ Bounds.arith_interval Syntax.minimum (span self) (span other) }
    {
        let low = self.low.min(other.low);
        let high = self.high.min(other.high);
        Ends { low, high }
    }

    #[tactic(auto, using(crate::proofs::Spans::ends), unfolding(rules::specs::Bounds::arith_interval))]
    pub fn max(self, other: Ends) -> Ends
        ensures { span result ≡ Bounds.arith_interval Syntax.maximum (span self) (span other) }
    {
        let low = self.low.max(other.low);
        let high = self.high.max(other.high);
        Ends { low, high }
    }

    // −m..m.
    #[tactic(auto, unfolding(rules::specs::Bounds::around))]
    fn around(m: u32) -> Ends
        ensures { span result ≡ Bounds.around m }
    {
        Ends {
            low: -i64::from(m),
            high: i64::from(m),
        }
    }

    // The range of the slot with these ends, x..x where it is empty.
    #[tactic(auto, using(crate::proofs::Spans::ends), unfolding(rules::specs::Bounds::slot_interval))]
    pub fn slot_values(self) -> Ends
        ensures { span result ≡ Bounds.slot_interval (slot_of self) }
    {
        let high = self.low.max(self.high);
        Ends {
            low: self.low,
            high,
        }
    }

    // The body's ends times the count of the slot with these ends. Where these are of 32 bits and the body's within the limit, the products fit 64.
    pub fn summed(self, body: Ends) -> Ends
        requires narrow { Narrow self }
        requires small { Small body }
        ensures { span result ≡ repeated (Meaning.count (slot_of self)) (span body) }
    {
        let n = self.slot_count();
        Ends {
            low: n * body.low,
            high: n * body.high,
        }
    }

    // How many values the slot with these ends has.
    #[tactic(auto, unfolding(language::specs::Meaning::count))]
    fn slot_count(self) -> i64
        requires { Narrow self }
        ensures { result ≡ pos (Meaning.count (slot_of self)) }
    {
        if self.low <= self.high {
            self.high - self.low + 1
        } else {
            0
        }
    }

    // The interval, where neither end is beyond the limit.
    #[tactic(auto, using(crate::proofs::Spans::ends))]
    pub fn within_limit(self) -> Option<Interval>
        ensures { IsNarrowed (span self) result }
    {
        if is_within(self.low) && is_within(self.high) {
            Some(Interval {
                low: self.low as i32,
                high: self.high as i32,
            })
        } else {
            None
        }
    }
}

impl From<Interval> for Ends {
    ghost from_gives = { λ i r. span r ≡ interval_of i };

    fn from(interval: Interval) -> Ends {
        Ends {
            low: i64::from(interval.low),
            high: i64::from(interval.high),
        }
    }
}

// "Add .. end by end".
impl Add for Interval {
    type Output = Ends;

    ghost add_gives = { λ i j r. span r ≡ Bounds.arith_interval Syntax.plus (interval_of i) (interval_of j) };

    fn add(self, other: Interval) -> Ends {
        Ends {
            low: i64::from(self.low) + i64::from(other.low),
            high: i64::from(self.high) + i64::from(other.high),
        }
    }
}

// "The least and greatest value that the operands' ends give".
impl Sub for Interval {
    type Output = Ends;

    ghost sub_gives = { λ i j r. span r ≡ Bounds.arith_interval Syntax.minus (interval_of i) (interval_of j) };

    fn sub(self, other: Interval) -> Ends {
        Ends {
            low: i64::from(self.low) - i64::from(other.high),
            high: i64::from(self.high) - i64::from(other.low),
        }
    }
}

impl Neg for Interval {
    type Output = Ends;

    ghost neg_gives = { λ i r. span r ≡ opposite (interval_of i) };

    fn neg(self) -> Ends {
        Ends {
            low: -i64::from(self.high),
            high: -i64::from(self.low),
        }
    }
}

// The least and greatest of four products.
impl Mul for Interval {
    type Output = Ends;

    ghost mul_gives = { λ i j r. span r ≡ Bounds.arith_interval Syntax.times (interval_of i) (interval_of j) };

    fn mul(self, other: Interval) -> Ends {
        let a = Ends::only(product(self.low, other.low));
        let b = Ends::only(product(self.low, other.high));
        let c = Ends::only(product(self.high, other.low));
        let d = Ends::only(product(self.high, other.high));
        a.hull(b).hull(c.hull(d))
    }
}

impl Slot {
    // The slot's range, x..x where it is empty.
    #[tactic(auto, using(crate::proofs::Spans::ends), unfolding(rules::specs::Bounds::slot_interval))]
    pub fn values(self) -> Interval
        ensures { interval_of result ≡ Bounds.slot_interval (as_slot self) }
    {
        Interval {
            low: self.low,
            high: self.low.max(self.high),
        }
    }

    // The body's ends times the slot's count.
    pub fn sum(self, body: Interval) -> Ends
        ensures { span result ≡ repeated (Meaning.count (as_slot self)) (interval_of body) }
    {
        let n = values_between(self.low, self.high) as i64;
        Ends {
            low: n * i64::from(body.low),
            high: n * i64::from(body.high),
        }
    }
}
