// What the calls test first: whether the state is valid and the time taken, whom a frame is for, and whether its length fits.
#![tactic(auto)]

ghost use Rattle.std.specs.Prelude.{◌≡◌, false, not};
ghost use Rattle.model.specs.Tests.{pick};
ghost use Rattle.model.specs.Request as Model;
ghost use Rattle.uds.specs.Result.{result_of};
ghost use Rattle.config.specs.View.{config_of};
ghost use Rattle.entry.specs.Gate.{barring};
ghost use Rattle.entry.specs.Address.{addressed_of};

use config::Config;
use uds::clock::Instant;
use uds::result::Refusal;

// A frame that is received has at most so many bytes.
const MAX_REQUEST: usize = 4095;

// What every call with a time asks first: 10 where the state is not valid, then 6 where the time is above 2^48. It is told whether the state is
// valid, since a state that is handed on is copied.
pub fn barred(valid: bool, t: Instant) -> Result<(), Refusal>
    ensures { result_of result ≡ barring valid t.0 }
{
    if !valid {
        return Err(Refusal::StateNotValid);
    }
    if Instant::MAX_TIME < t.0 {
        return Err(Refusal::TimeTooLate);
    }
    Ok(())
}

// How a frame was addressed: functionally or not; None where it is for another.
pub fn addressed(config: &Config, dst: u32) -> Option<bool>
    ensures { addressed_of result ≡ Model.addressed (config_of config.now) dst }
{
    if dst == config::physical(config) {
        return Some(false);
    }
    if dst == config::functional(config) {
        return Some(true);
    }
    None
}

// A frame's length is asked where no request is pending.
pub fn misfits(on: bool, frame: &[u8]) -> bool
    ensures { result ≡ pick on false (not (Model.length_fits frame.now)) }
{
    !on && (frame.is_empty() || MAX_REQUEST < frame.len())
}
