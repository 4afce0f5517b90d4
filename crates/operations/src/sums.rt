// A sum over a slot's values. Partial sums are no node's value, so the limit is not asked of them.
ghost use Rattle.std.specs.Prelude.{◌≡◌, ◌+◌, ◌^◌, ◌≤◌, true, pos};
ghost use Rattle.std.proofs.Math.Option.{some};
ghost use Rattle.operations.specs.Values.{limited_to};
ghost use Rattle.operations.specs.Sums.{total_of, total_value, magnitude, plus_to};

use crate::values::{Value, Walked, limited, undefined};

// A sum so far: none once an addend is undefined.
// Kept: the flag beside the sum, since it is that of the `Walked` structs that go in and of the one that comes out.
#[derive(Clone, Copy, Debug, PartialEq, Eq)]
pub struct Total {
    pub sum: Option<i64>,
    pub within: bool,
}

pub fn nothing() -> Total
    ensures { result ≡ total_of true (some (pos 0)) }
{
    Total {
        sum: Some(0),
        within: true,
    }
}

#[tactic(auto, using(crate::proofs::Walks::missing), unfolding(crate::specs::Sums::plus_to, language::specs::Readings::both))]
pub fn added(total: Total, a: Walked) -> Total
    requires { magnitude total ≤ 2 ^ 62 }
    ensures { (result ≡ plus_to total a) × (magnitude result ≤ magnitude total + 2 ^ 31) }
{
    let within = total.within & a.within;
    match (total.sum, a.value) {
        (Some(sum), Value::Integer(x)) if within => {
            let sum = sum + i64::from(x);
            Total {
                sum: Some(sum),
                within: true, // whatever the sum so far
            }
        }
        _ => Total { sum: None, within },
    }
}

#[tactic(auto, using(crate::proofs::Walks::missing))]
pub fn summed(total: Total) -> Walked
    ensures { result ≡ limited_to total.within (total_value total) }
{
    match total.sum {
        Some(sum) => limited(total.within, sum),
        None => undefined(total.within),
    }
}
