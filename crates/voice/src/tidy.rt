// A voice as serving leaves it: what no mark or count covers is blank.
ghost use Rattle.std.specs.Prelude.{◌≡◌};
ghost use Rattle.voice.specs.Tidy.{tidy_entry, tidy_under, tidy_queue, tidy_ramp, tidy_filters, tidied};

use crate::blank::{PLACES, kept_if};
use crate::record::{Entry, Voice};
use adpcm::History;
use filters::state::{BiquadFilter, Filters, SimpleFilter};
use numbers::sizes::{CHANNELS, GAINS, MIX_COUNT};

// An entry: its history is blank where the mark of that is off.
#[tactic(auto, unfolding(crate::specs::Tidy::tidy_entry))]
pub fn tidy_entry(e: &mut Entry)
    ensures { e.new ≡ tidy_entry e.old }
{
    if !e.has_adpcm {
        e.adpcm = History::default();
    }
}

// An entry under a mark.
#[tactic(auto, unfolding(crate::specs::Tidy::tidy_under, crate::specs::Blank::blank_entry))]
pub fn tidy_under(on: bool, e: &mut Entry)
    ensures { e.new ≡ tidy_under on e.old }
{
    if on {
        tidy_entry(e);
    } else {
        *e = Entry::default();
    }
}

// The entries that are queued stay, and the places behind them are blank. A record that was lent may have more queued than places.
fn tidy_queue(queue: &mut [Entry; PLACES], queued: usize)
    ensures { queue.new ≡ tidy_queue queued queue.old }
{
    let (kept, free) = queue.split_at_mut(queued.min(PLACES));
    for e in kept.iter_mut() {
        tidy_entry(e);
    }
    free.fill(Entry::default());
}

// The ramps by the marks of their mixes, four numbers to a mix.
fn tidy_ramp(ramp: &mut [f32; GAINS], marks: [bool; MIX_COUNT])
    ensures { ramp.new ≡ tidy_ramp marks ramp.old }
{
    for (k, gain) in ramp.iter_mut().enumerate() {
        *gain = kept_if(marks[k / CHANNELS], *gain, 0.0);
    }
}

#[tactic(auto, unfolding(crate::specs::Tidy::tidy_filters))]
pub fn tidy_filters(f: &mut Filters)
    ensures { f.new ≡ tidy_filters f.old }
{
    if !f.has_simple {
        f.simple = SimpleFilter::default();
    }
    if !f.has_biquad {
        f.biquad = BiquadFilter::default();
    }
}

#[tactic(auto, unfolding(crate::specs::Tidy::tidied))]
pub fn tidy(v: &mut Voice)
    ensures { v.new ≡ tidied v.old }
{
    tidy_queue(&mut v.queue, v.queued);
    tidy_ramp(&mut v.ramp, v.has_ramp);
    tidy_filters(&mut v.filters);
    tidy_under(v.has_playing, &mut v.playing);
}
