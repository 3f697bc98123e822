// Of module 4, the configuration of a voice: what the flags of its dirty word do to its filters. `filters_step` takes the record by value
// and the voice's 192 bytes, and gives the record back with its filters switched and given coefficients as the definitions of `settings`
// say. Nothing is refused, and no memory is written.
#![tactic(auto)]

ghost use Rattle.std.specs.Prelude.{◌≡◌, ◌+◌, ◌≤◌, length};
ghost use Rattle.settings.specs.Steps.{half, enabled_filters, simple_filters, biquad_filters, filters_step};

use fields::config;
use fields::config::CONFIG_SIZE;
use filters::state::{BiquadFilter, Filters, SimpleFilter};
use little::{read16, signed_at};
use settings::dirty;
use settings::dirty::flag;
use voice::blank::kept_if;
use voice::record::Voice;

// A signed half, as a filter has it.
fn half(bytes: &[u8; CONFIG_SIZE], at: usize) -> i32
    requires { at + 2 ≤ length bytes.now }
    ensures { result ≡ half bytes.now at }
{
    i32::from(signed_at(bytes, at))
}

// A filter that is switched on anew, or off, is the default.
#[tactic(auto, unfolding(settings::specs::Steps::enabled_filters))]
fn enabled_filters(f: Filters, bytes: &[u8; CONFIG_SIZE]) -> Filters
    ensures { result ≡ enabled_filters bytes.now f }
{
    if !flag(bytes, dirty::FILTERS_ENABLED) {
        return f;
    }
    let word = read16(bytes, config::FILTERS_ENABLED);
    let has_simple = word % 2 == 1;
    let has_biquad = word / 2 % 2 == 1;
    Filters {
        has_simple,
        simple: kept_if(
            has_simple && f.has_simple,
            f.simple,
            SimpleFilter::default(),
        ),
        has_biquad,
        biquad: kept_if(
            has_biquad && f.has_biquad,
            f.biquad,
            BiquadFilter::default(),
        ),
    }
}

// A filter that was on keeps what it has of its channels.
#[tactic(auto, unfolding(settings::specs::Steps::simple_filters))]
fn simple_filters(mut f: Filters, bytes: &[u8; CONFIG_SIZE]) -> Filters
    ensures { result ≡ simple_filters bytes.now f }
{
    if flag(bytes, dirty::SIMPLE_FILTER) {
        let at = config::SIMPLE_FILTER;
        f.simple = SimpleFilter {
            b0: half(bytes, at),
            a1: half(bytes, at + 2),
            y1: kept_if(f.has_simple, f.simple.y1, [0; 2]),
        };
        f.has_simple = true;
    }
    f
}

#[tactic(auto, unfolding(settings::specs::Steps::biquad_filters))]
fn biquad_filters(mut f: Filters, bytes: &[u8; CONFIG_SIZE]) -> Filters
    ensures { result ≡ biquad_filters bytes.now f }
{
    if flag(bytes, dirty::BIQUAD_FILTER) {
        let at = config::BIQUAD_FILTER;
        f.biquad = BiquadFilter {
            b: [
                half(bytes, at + 8),
                half(bytes, at + 6),
                half(bytes, at + 4),
            ],
            a: [half(bytes, at + 2), half(bytes, at)],
            x: kept_if(f.has_biquad, f.biquad.x, [0; 4]),
            y: kept_if(f.has_biquad, f.biquad.y, [0; 4]),
        };
        f.has_biquad = true;
    }
    f
}

#[tactic(auto, unfolding(settings::specs::Steps::filters_step))]
pub fn filters_step(mut v: Voice, bytes: &[u8; CONFIG_SIZE]) -> Voice
    ensures { result ≡ filters_step bytes.now v }
{
    let enabled = enabled_filters(v.filters, bytes);
    let simple = simple_filters(enabled, bytes);
    v.filters = biquad_filters(simple, bytes);
    v
}
