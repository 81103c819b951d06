//! A part of a total in thousandths: to the nearest, an exact half to the even neighbour (docs/RULES.md, "Weights" to "Leader and anchor").

ghost use Rattle.std.specs.Prelude.{◌≡◌};
ghost use Rattle.committee.specs.Shares.{rounded, share_of, Division, PartOf};

use std::cmp::Ordering;
use terms::sheet::Weight;

// What a division by `total` comes to, whose whole part is `whole` and whose rest is `rest`.
#[tactic(auto, unfolding(crate::specs::Shares::rounded, crate::specs::Shares::even_neighbour))]
fn round(whole: u64, rest: u64, total: Weight) -> u64
    requires { Division whole rest total.0 }
    ensures { result ≡ rounded whole rest total.0 }
{
    match (2 * rest).cmp(&total.0) {
        Ordering::Less => whole,
        Ordering::Greater => whole + 1,
        Ordering::Equal => whole + whole % 2,
    }
}

/// A weight in thousandths of the total: to the nearest whole number, an exact half to the even neighbour.
///
/// The total is above 0 and the weight no larger, so it is 0 to 1,000.
#[tactic(auto, using(crate::proofs::ShareLaws::share_bound), unfolding(crate::specs::Shares::share_of, crate::specs::Shares::nearest))]
pub(crate) fn thousandths(weight: Weight, total: Weight) -> u32
    requires { PartOf weight.0 total.0 }
    ensures { result ≡ share_of weight.0 total.0 }
{
    let scaled = 1000 * weight.0;
    round(scaled / total.0, scaled % total.0, total) as u32
}
