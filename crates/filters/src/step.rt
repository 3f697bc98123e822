// What a filter keeps of a channel once it gave a value. The filter and the value are any: nothing is asked but the channel.
ghost use Rattle.std.specs.Prelude.{◌≡◌, ◌<◌};
ghost use Rattle.filters.specs.Filter.{simple_after, biquad_after};

use crate::state::{BiquadFilter, SimpleFilter};

pub fn simple_after(f: SimpleFilter, channel: usize, value: i16) -> SimpleFilter
    requires { channel < 2 }
    ensures { result ≡ simple_after channel f value }
{
    let mut after = f;
    after.y1[channel] = i32::from(value);
    after
}

pub fn biquad_after(f: BiquadFilter, channel: usize, x0: i16, value: i16) -> BiquadFilter
    requires { channel < 2 }
    ensures { result ≡ biquad_after channel f x0 value }
{
    let older = channel + 2;
    let mut after = f;
    after.x[older] = after.x[channel];
    after.x[channel] = i32::from(x0);
    after.y[older] = after.y[channel];
    after.y[channel] = i32::from(value);
    after
}
