// Refusal 10: "A top statement has nesting 1; at most 32."
ghost use Rattle.std.specs.Prelude.{◌≡◌, [], ◌∷◌, ◌≤◌, length};
ghost use Rattle.base.specs.Refusals.{refusal};
ghost use Rattle.forest.specs.Ends.{Left};
ghost use Rattle.forest.specs.Forest.{nesting_rule};

use base::codes::Code;
use base::{Answer, Refusal};
use blocks::bodies::second_end;
use table::read::Table;

const MOST_NESTING: usize = 32;

// How many of the first n ends are left where those that statement i has reached are dropped, from the last on.
fn left(ends: &[u16], n: usize, i: u32) -> usize
    requires { n ≤ length ends.now }
    ensures { Left ends.now n i result }
{
    ends[..n]
        .iter()
        .rposition(|end| i < *end as u32)
        .map_or(0, |last| last + 1)
}

// Refusal 10 at the lowest statement that is nested deeper than 32.
//
// The walk keeps the ends of the statement before, of that one's owner and so on, the innermost last. Bodies end inside the block
// around them: those that the next statement has not reached are the ends of the statements around it. A turn keeps one end more and
// each is dropped once, so that the whole is linear.
pub fn nestings_ok(table: &Table) -> Answer
    ensures { result ≡ refusal (nesting_rule table.now.frame.bytes.now ∷ []) }
{
    // An array and a count beside it, since std's vectors are on the heap and memory is fixed here.
    let mut ends = [0u16; MOST_NESTING];
    let mut kept: usize = 0;
    for i in 0..table.frame.header.statements {
        let around = left(&ends[..], kept, i);
        let nesting = around + 1;
        if MOST_NESTING < nesting {
            return Err(Refusal {
                code: Code::Nesting,
                place: i,
            });
        }
        ends[around] = second_end(&table.frame, i) as u16;
        kept = nesting;
    }
    Ok(())
}
