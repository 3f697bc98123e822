// The port's functions under C names, for the comparisons with the Rust. Test only: each takes plain numbers and slices, calls the function
// that it is named after, and promises nothing of its own. Those on numbers alone go by `yinzhor_number`, a kind and its operands.
#![tactic(auto)]

ghost use Rattle.std.specs.Prelude.{◌≡◌, ◌+◌, ◌≤◌, length};
ghost use Rattle.listing.specs.Sizes.{input_room};

use adpcm::History;
use listing::sizes::OUTPUT_ROOM;
use refusals::answered;
use window::Window;

#[unsafe(no_mangle)]
pub extern "C" fn yinzhor_number(kind: u32, a: u64, b: u64, c: u64) -> u64 {
    number_jobs::number(kind, a, b, c)
}

#[unsafe(no_mangle)]
pub extern "C" fn yinzhor_read_dsp32(bytes: &[u8], at: usize) -> u32
    requires { at + 4 ≤ length bytes.now }
{
    little::read_dsp32(bytes, at)
}

#[unsafe(no_mangle)]
pub extern "C" fn yinzhor_write_dsp32(bytes: &mut [u8], at: usize, value: u32)
    requires { at + 4 ≤ length bytes.old }
{
    little::write_dsp32(bytes, at, value);
}

// The layout's offsets are words.
#[unsafe(no_mangle)]
pub extern "C" fn yinzhor_layout_number(first: usize, second: usize, offsets: &[u8]) -> u8
    requires { length offsets.now ≡ 28 }
{
    let l = mixer_forms::layout_of(offsets, 0);
    answered(layout::accept(first, second, l))
}

#[unsafe(no_mangle)]
pub extern "C" fn yinzhor_present(window: &[u8], base: u32, address: u32, count: u32) -> bool {
    let window = Window {
        bytes: window,
        base,
    };
    window.present(address, count)
}

// Copies the part that the look-up hands back to the front of `out`, and answers how long it is.
#[unsafe(no_mangle)]
pub extern "C" fn yinzhor_physical(
    window: &[u8],
    base: u32,
    address: u32,
    count: u32,
    out: &mut [u8],
) -> usize {
    let window = Window {
        bytes: window,
        base,
    };
    let part = window.physical(address, count);
    if let Some(front) = out.get_mut(..part.len()) {
        front.copy_from_slice(part);
    }
    part.len()
}

#[unsafe(no_mangle)]
pub extern "C" fn yinzhor_decode_adpcm(
    data: &[u8],
    count: usize,
    coefficients: &[i16; 16],
    history: &mut [i16],
    samples: &mut [i16],
) -> u8
    requires { length history.old ≡ 2 }
{
    let mut last = History {
        yn1: history[0],
        yn2: history[1],
    };
    let outcome = adpcm::decode_adpcm(data, count, coefficients, &mut last, samples);
    history[0] = last.yn1;
    history[1] = last.yn2;
    answered(outcome)
}

#[unsafe(no_mangle)]
pub extern "C" fn yinzhor_listing(input: &[u8], output: &mut [u8; OUTPUT_ROOM]) -> usize {
    listing::listing(input, output)
}

#[unsafe(no_mangle)]
pub extern "C" fn yinzhor_list_read(
    buffer: &[u8],
    got: usize,
    output: &mut [u8; OUTPUT_ROOM],
) -> usize
    requires { (length buffer.now ≡ input_room) × (got ≤ input_room) }
{
    listing::list_read(buffer, got, output)
}

// The layout's offsets are words, the state has mixer_forms' form, and the frame's samples are halves.
#[unsafe(no_mangle)]
pub extern "C" fn yinzhor_mixer_tick(
    first: &mut [u8],
    second: &mut [u8],
    offsets: &[u8],
    read: u32,
    mixes: &[i32],
    state: &mut [u8],
    frame: &mut [u8],
) -> u8
    requires seven_offsets { length offsets.now ≡ 28 }
    requires whole_state { length state.old ≡ 16 }
    requires whole_frame { length frame.old ≡ 640 }
{
    let given = mixer_forms::state_of(state);
    let l = mixer_forms::layout_of(offsets, 0);
    let mixed = mixer::tick::tick(given, l, read, first, second, mixes);
    mixer_forms::put_frame(&mixed.frame, frame, 0);
    mixer_forms::put_state(mixed.mixer, state, 0);
    answered(mixed.outcome)
}
