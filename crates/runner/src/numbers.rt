// The numbers given back for an ending: "code, place".
ghost use Rattle.std.specs.Prelude.{◌≡◌};
ghost use Rattle.running.specs.Result.{code_of, place_of};

use running::Ending;

// The code: 0 where the run is done.
#[tactic(auto, unfolding(running::specs::Result::code_of))]
pub fn code_of(ending: Ending) -> u32
    ensures { result ≡ code_of ending }
{
    match ending {
        Ending::Done => 0,
        Ending::Refused(refusal) => refusal.code.number(),
        Ending::Stopped(stop, _) => stop.number(),
    }
}

// The place: 0 where the run is done, the statement where it stopped.
#[tactic(auto, unfolding(running::specs::Result::place_of))]
pub fn place_of(ending: Ending) -> u32
    ensures { result ≡ place_of ending }
{
    match ending {
        Ending::Done => 0,
        Ending::Refused(refusal) => refusal.place,
        Ending::Stopped(_, statement) => statement,
    }
}
