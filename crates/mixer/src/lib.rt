// Module 7, the final mixer: the three mixes of a frame made into what the speakers play. `tick::tick` takes the state, a layout, the
// number of the region to be read, both regions and the mixes, for any values and lengths. It refuses with the lowest of 1, 2 and 3 (the
// regions' lengths and the layout), 6 (the mixes are not 1,920 numbers) and 8 (the region number exceeds 1), and then gives a zero frame
// and the state as it was and writes nothing. Else the configuration in the region read changes the state (`mixer_state`), the mixes are
// heard and added in turn and the frame goes to the other region (`mixer_frame`, over `mix_bytes` and `downmix`), and the dirty word is
// cleared.
#![tactic(auto)]

pub mod tick;
