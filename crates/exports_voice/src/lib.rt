// What the oracle asks of a voice whose record stands in bytes, under C names. Test only: each calls the function of voice_jobs or of
// frame_jobs that it is named after, and promises nothing of its own.
#![tactic(auto)]

ghost use Rattle.std.specs.Prelude.{◌≡◌, ◌≤◌, length};

use frame_jobs::serving;
use record_reader::RECORD;
use refusals::answered;
use voice_jobs::{filtering, playing};
use window::Window;

#[unsafe(no_mangle)]
pub extern "C" fn yinzhor_record(lane: usize, bytes: &mut [u8; RECORD]) -> u8 {
    answered(voice_jobs::configuration::record(lane, bytes))
}

#[unsafe(no_mangle)]
pub extern "C" fn yinzhor_configure(
    lane: usize,
    bytes: &mut [u8; RECORD],
    configuration: &mut [u8],
    coefficients: &[u8],
) -> u8
    requires whole_configuration { length configuration.old ≡ 192 }
    requires all_coefficients { length coefficients.now ≡ 32 }
{
    answered(voice_jobs::configuration::configure(
        lane,
        bytes,
        configuration.as_mut_array().unwrap(),
        coefficients.as_array().unwrap(),
    ))
}

#[unsafe(no_mangle)]
pub extern "C" fn yinzhor_filter(count: usize, bytes: &mut [u8; RECORD]) -> bool
    requires { count ≤ 160 }
{
    filtering::filter(count, bytes)
}

#[unsafe(no_mangle)]
pub extern "C" fn yinzhor_play(
    bytes: &mut [u8; RECORD],
    window: &[u8],
    base: u32,
    lane: &mut [i16],
) -> u8 {
    let window = Window {
        bytes: window,
        base,
    };
    answered(playing::play(bytes, window, lane))
}

#[unsafe(no_mangle)]
pub extern "C" fn yinzhor_reread(lane: usize, bytes: &mut [u8; RECORD]) -> u8 {
    answered(serving::reread(lane, bytes))
}

#[unsafe(no_mangle)]
pub extern "C" fn yinzhor_serve(
    bytes: &mut [u8; RECORD],
    lane: &mut [i16],
    configuration: &mut [u8],
    coefficients: &[u8],
    window: &[u8],
    base: u32,
    mixes: &mut [i32],
    report: &mut [u8],
) -> u8
    requires whole_configuration { length configuration.old ≡ 192 }
    requires all_coefficients { length coefficients.now ≡ 32 }
    requires all_mixes { length mixes.old ≡ 1920 }
    requires whole_status { length report.old ≡ 12 }
{
    let window = Window {
        bytes: window,
        base,
    };
    answered(serving::serve(
        bytes,
        lane,
        configuration.as_mut_array().unwrap(),
        coefficients.as_array().unwrap(),
        window,
        mixes.as_mut_array().unwrap(),
        report.as_mut_array().unwrap(),
    ))
}
