//! The parts of an amount by weights: each part rounded down, and then one unit each,
//! until the amount is made, to the lowest places whose part was rounded down.
ghost use Rattle.std.specs.Prelude.{◌≡◌, ◌-◌, ◌<◌, ◌≤◌, min, sum};
ghost use Rattle.sums.specs.Parts.{floor_part, floor_parts, rounded_down, parted};

use crate::total::{Every, total};

/// The parts of an amount by weights, each rounded down: together at most the amount.
/// Where every weight is 0, every part is 0.
pub fn floor_parts(amount: u64, weights: &[u64; 32]) -> [u64; 32]
    ensures parts { result ≡ floor_parts amount weights.now }
    ensures below { sum result ≤ amount }
{
    let all = total(weights, &Every);
    let mut parts = [0; 32];
    // A loop: the cast holds since no weight is above the total, which a closure cannot know of what it is called with.
    for (i, &weight) in weights.iter().enumerate() {
        parts[i] = floor_part(amount, weight, all) as u64;
    }
    parts
}

/// The parts of an amount by weights, which make the amount unless every weight is 0.
pub fn part_by(amount: u64, weights: &[u64; 32]) -> [u64; 32]
    ensures parts { result ≡ parted amount weights.now }
    ensures made { 0 < sum weights.now → sum result ≡ amount }
{
    let all = total(weights, &Every);
    let floors = floor_parts(amount, weights);
    if all == 0 {
        return floors;
    }
    let mut left = amount - total(&floors, &Every) as u64;
    let mut parts = floors;
    // A loop, since each turn takes from the units left: of a closure that changes something, a proof knows nothing after it.
    for (i, &weight) in weights.iter().enumerate() {
        parts[i] = floors[i] + take_unit(&mut left, amount, weight, all);
    }
    parts
}

/// The part by one weight of all, rounded down; 0 where the weights come to 0.
fn floor_part(amount: u64, weight: u64, all: u128) -> u128
    ensures { result ≡ floor_part amount all weight }
{
    if all == 0 {
        return 0;
    }
    u128::from(amount) * u128::from(weight) / all
}

/// Takes one of the units left, if there is one and the part by one weight of all was rounded down.
fn take_unit(left: &mut u64, amount: u64, weight: u64, all: u128) -> u64
    requires { 0 < all }
    ensures unit { result ≡ min left.old (rounded_down amount all weight) }
    ensures rest { left.new ≡ left.old - result }
{
    if *left == 0 || u128::from(amount) * u128::from(weight) % all == 0 {
        return 0;
    }
    *left -= 1;
    1
}
