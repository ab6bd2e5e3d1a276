// The one number that an exported function answers: 256 times a value, plus the number of the refusal, or 0.
ghost use Rattle.std.specs.Prelude.{◌≡◌};
ghost use Rattle.figures.specs.Outcome.{outcome};
ghost use Rattle.dagglehurst.specs.Reply.{reply};

use figures::Refusal;

// The largest value that there is room for. It stands for every larger one.
const MAX_VALUE: usize = 72_057_594_037_927_935;

// The reply of a call. Its value is what was answered, or the place of the refusal.
#[tactic(auto, unfolding(crate::specs::Reply::reply))]
pub(crate) fn of(called: Result<usize, Refusal>) -> u64
    ensures { result ≡ reply (outcome called) }
{
    match called {
        Ok(value) => 256 * (value.min(MAX_VALUE) as u64),
        Err(why) => 256 * (why.place().min(MAX_VALUE) as u64) + (why.number() as u64),
    }
}
