// Whether a queue takes entries that a voice would add: the numbers 20 and 21.
ghost use Rattle.std.specs.Prelude.{◌≡◌, ◌≤◌};
ghost use Rattle.refusals.specs.Numbers.{number_of};
ghost use Rattle.voice.specs.Blank.{places};
ghost use Rattle.queueing.specs.Refusal.{refusal_of};

use refusals::Refusal;
use voice::blank::LIMIT;
use voice::malformed::any_too_long;
use voice::record::Entry;

// Accepts entries for a queue with so many, or says why it refuses them.
#[tactic(auto, unfolding(crate::specs::Refusal::refusal_of))]
pub fn accept_entries(queued: usize, entries: &[Entry], lane: usize) -> Result<(), Refusal>
    requires { queued ≤ places }
    ensures { number_of result ≡ refusal_of queued entries.now lane }
{
    if entries.len() > LIMIT - queued {
        return Err(Refusal::QueueFull);
    }
    if any_too_long(entries, lane) {
        return Err(Refusal::EntryTooLong);
    }
    Ok(())
}
