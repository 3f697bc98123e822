// An ADPCM decode. The part is the listing program's input: 16 coefficients and the history, signed halves; a count, 16 bits; the frames.
// The answer has that many samples and the history after them, signed halves.
ghost use Rattle.std.specs.Prelude.{◌≤◌, length, IfSome};

use crate::sizes::{HALVES, ROOM};
use listing::input;
use listing::sizes::HEADER;
use replaying::held::put_each;

pub fn answer<'a>(part: &[u8], out: &'a mut [u8; ROOM]) -> Option<&'a [u8]>
    ensures { IfSome result (λ s. length s.now ≤ 131074) }
{
    let (header, data) = part.split_first_chunk::<HEADER>()?;
    let values = input::coefficients(header);
    let mut history = input::history(header);
    let count = input::count(header);
    let mut samples = [0i16; HALVES];
    adpcm::decode_adpcm(data, count, &values, &mut history, &mut samples).ok()?;
    samples[count] = history.yn1;
    samples[count + 1] = history.yn2;
    put_each(&samples, out);
    out.get(..(count + 2) * 2)
}
