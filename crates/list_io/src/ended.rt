// Why a list ended before its totals, as the functions of this crate answer it.
use super::Stopped;
use figures::Refusal;

#[derive(Drop)]
pub(crate) enum Ended {
    // Its grid or a piece of it was refused.
    Refused(Refusal),
    Stopped(Stopped),
}

impl From<Refusal> for Ended {
    fn from(why: Refusal) -> Ended {
        Ended::Refused(why)
    }
}

impl From<Stopped> for Ended {
    fn from(why: Stopped) -> Ended {
        Ended::Stopped(why)
    }
}
