// The label that each op makes of the labels of its operands. A rule that doesn't hold leaks.
#![tactic(auto, unfolding(crate::specs::Labels::may_go, crate::specs::Labels::when, crate::specs::Labels::either, crate::specs::Labels::load_label, crate::specs::Labels::store_label, crate::specs::Labels::let_label))]

ghost use Rattle.std.specs.Prelude.{◌≡◌};
ghost use Rattle.sealing.specs.Labels as Labels;

use crate::Label;

// May what has this label go to a place that is sealed or open?
pub fn may_go(place: bool, e: Label) -> bool
    ensures { result ≡ Labels.may_go place e }
{
    e.is_some_and(|sealed| !sealed || place)
}

// Two operands that may have any label.
pub fn either(e: Label, f: Label) -> Label
    ensures { result ≡ Labels.either e f }
{
    Some(e? | f?)
}

// A load at an address, which must be open.
pub fn load(m: Label, e: Label) -> Label
    ensures { result ≡ Labels.load_label m e }
{
    if may_go(false, e) { m } else { None }
}

// A store at an address, which must be open.
pub fn store(m: Label, e: Label, v: Label) -> Label
    ensures { result ≡ Labels.store_label m e v }
{
    if may_go(false, e) { either(m, v) } else { None }
}

// A let of a variable that is sealed or open.
pub fn lets(variable: bool, e: Label, f: Label) -> Label
    ensures { result ≡ Labels.let_label variable e f }
{
    if may_go(variable, e) { f } else { None }
}
