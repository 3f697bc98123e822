// The mixer's call on lent memory.
ghost use Rattle.std.specs.Prelude.{◌≡◌, ◌+◌, ◌≤◌, ◌≢◌, IfOk, IfErr, length};
ghost use Rattle.refusals.specs.Numbers.{number, number_of};
ghost use Rattle.numbers.specs.Sizes.{MIXES};
ghost use Rattle.mixer.specs.Inner.{Roomy, Accepted};
ghost use Rattle.mixer.specs.Tick.{number_of as lowest_number, GivesBack, refusal, served, left, ticked};

use layout::Layout;
use little::part_at;
use mixer_frame::{frame_of, write_out};
use mixer_state::Mixer;
use mixer_state::configuration::{clear_dirty, parse_config};
use numbers::sizes::{FRAME, MIXES};
use refusals::Refusal;
use region::Region;

// What a call gives back: what it was refused for, if it was; the state; and 160 pairs of final samples.
#[derive(Clone, Copy)]
pub struct Mixed {
    pub outcome: Result<(), Refusal>,
    pub mixer: Mixer,
    pub frame: [i16; FRAME],
}

// A call that is not refused, by the region that is read and the other one.
fn mix(l: Layout, m: Mixer, read: &mut [u8], write: &mut [u8], given: &[i32; MIXES]) -> Mixed
    requires read_room { Roomy l (length read.old) }
    requires write_room { Roomy l (length write.old) }
    ensures answer { GivesBack result (served l m given.now read.old) }
    ensures read { read.new ≡ (left l m given.now (read.old, write.old)).0 }
    ensures written { write.new ≡ (left l m given.now (read.old, write.old)).1 }
{
    let at = l.mixer_configuration as usize;
    let mixer = parse_config(m, part_at(read, at));
    let frame = frame_of(l, mixer, read, given);
    write_out(l, mixer, given, &frame, write);
    clear_dirty(read, at);
    Mixed {
        outcome: Ok(()),
        mixer,
        frame,
    }
}

// What a refused call gives back.
fn refuse(reason: Refusal, mixer: Mixer) -> Mixed
    ensures { GivesBack result (refusal mixer (number reason)) }
{
    Mixed {
        outcome: Err(reason),
        mixer,
        frame: [0i16; FRAME],
    }
}

// The mixes, of which there must be 1,920 numbers.
fn whole(given: &[i32]) -> Result<&[i32; MIXES], Refusal>
    ensures ok { IfOk result (λ mixes. (mixes.now ≡ given.now) × (length given.now ≡ MIXES)) }
    ensures err { IfErr result (λ reason. (reason ≡ Refusal.MixLength) × (length given.now ≢ MIXES)) }
{
    given.as_array().ok_or(Refusal::MixLength)
}

// Accepts a call's mixes and the number of the region to be read, or refuses the call by the lowest number that applies.
fn accept(
    first: usize,
    second: usize,
    l: Layout,
    given: &[i32],
    which: u32,
) -> Result<(&[i32; MIXES], Region), Refusal>
    ensures number { number_of result ≡ lowest_number first second l (length given.now) which }
    ensures accepted { IfOk result (λ a. Accepted first second l given.now which a.0.now a.1) }
{
    layout::accept(first, second, l)?;
    let mixes = whole(given)?;
    let region = Region::try_from(which)?;
    Ok((mixes, region))
}

// Mixes one frame: `which` is the number of the region that the title wrote last, which is read.
pub fn tick(
    m: Mixer,
    l: Layout,
    which: u32,
    first: &mut [u8],
    second: &mut [u8],
    given: &[i32],
) -> Mixed
    ensures answer { GivesBack result (ticked l m given.now which first.old second.old).answer }
    ensures first_region { first.new ≡ (ticked l m given.now which first.old second.old).first }
    ensures second_region { second.new ≡ (ticked l m given.now which first.old second.old).second }
{
    match accept(first.len(), second.len(), l, given, which) {
        Ok((mixes, Region::Zero)) => mix(l, m, first, second, mixes),
        Ok((mixes, Region::One)) => mix(l, m, second, first, mixes),
        Err(reason) => refuse(reason, m),
    }
}
