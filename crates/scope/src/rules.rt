// Refusals 8 to 11 together.
ghost use Rattle.std.specs.Prelude.{◌≡◌};
ghost use Rattle.base.specs.Refusals.{refusal};
ghost use Rattle.forest.specs.Forest.{forest_rules};

use crate::scopes_ok;
use base::Answer;
use forest::depth::depths_ok;
use forest::nesting::nestings_ok;
use forest::uses::uses_once;
use table::read::Table;

// The first of refusals 8 to 11 that comes, at its lowest place.
pub fn forest_ok(table: &Table) -> Answer
    ensures { result ≡ refusal (forest_rules table.now.frame.bytes.now) }
{
    uses_once(table)?;
    depths_ok(table)?;
    nestings_ok(table)?;
    scopes_ok(table)
}
