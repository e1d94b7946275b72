// Refusal 9: "A leaf has depth 1, another node one more than its deepest operand; at most 64."
ghost use Rattle.std.specs.Prelude.{◌≡◌, [], ◌∷◌, map, max, ◌≤◌, ◌<◌, length, get_or};
ghost use Rattle.base.specs.Refusals.{refusal};
ghost use Rattle.forest.specs.Forest.{largest, depth_rule};
ghost use Rattle.forest.specs.Counting.{listed, AllBelow};

use crate::operands;
use crate::operands::Operands;
use base::codes::Code;
use base::{Answer, Refusal};
use blocks::room::with_zeros;
use table::read::Table;

const MOST_DEPTH: u16 = 64;

// The largest depth that was kept of an expression's operands, 0 where there are none.
#[tactic(auto, using(crate::proofs::DepthLaws::deepest_next, crate::proofs::DepthLaws::deepest_all))]
fn deepest(depths: &[u16], operands: Operands) -> u16
    requires { AllBelow (length depths.now) (listed operands) }
    ensures { result ≡ largest (map (λ k. get_or depths.now k 0) (listed operands)) }
{
    let mut deepest = 0;
    for k in operands {
        deepest = depths[k as usize].max(deepest);
    }
    deepest
}

// Refusal 9, with places to keep the depths, one for each expression or more.
fn depths_in(table: &Table, depths: &mut [u16]) -> Answer
    requires expressions_in_bounds { table.now.frame.header.expressions ≤ length depths.old }
    ensures { result ≡ refusal (depth_rule table.now.frame.bytes.now ∷ []) }
{
    for i in 0..table.frame.header.expressions {
        let d = deepest(depths, operands::of_expression(table.frame.expression(i)));
        if MOST_DEPTH <= d {
            return Err(Refusal {
                code: Code::Depth,
                place: i,
            });
        }
        depths[i as usize] = d + 1;
    }
    Ok(())
}

// Refusal 9 at the lowest expression that is deeper than 64.
pub fn depths_ok(table: &Table) -> Answer
    ensures { result ≡ refusal (depth_rule table.now.frame.bytes.now ∷ []) }
{
    with_zeros(table.frame.header.expressions, table, depths_in)
}
