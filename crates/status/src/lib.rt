// Of module 6, a voice's status: the 12 bytes that tell the title how far the voice is. `write_status` puts those of a record over the part
// of a region that it is lent. Nothing is refused.
#![tactic(auto)]

ghost use Rattle.std.specs.Prelude.{◌≡◌};
ghost use Rattle.status.specs.Status.{status_of};

use fields::status;
use little::{write_dsp32, write16};
use voice::record::Voice;

// The status of a voice.
fn status_of(v: &Voice) -> [u8; status::STATUS_SIZE]
    ensures { result ≡ status_of v.now }
{
    let mut new = [0u8; status::STATUS_SIZE];
    new[status::ENABLED] = u8::from(v.enabled);
    new[status::BUFFER_UPDATE] = u8::from(v.buffer_update);
    write16(&mut new, status::SYNC_COUNT, v.sync_count);
    write_dsp32(&mut new, status::POSITION, v.position);
    write16(&mut new, status::CURRENT_BUFFER_ID, v.current_buffer_id);
    write16(&mut new, status::LAST_BUFFER_ID, v.last_buffer_id);
    new
}

// Puts a voice's status over the bytes.
pub fn write_status(v: &Voice, bytes: &mut [u8; status::STATUS_SIZE])
    ensures { bytes.new ≡ status_of v.now }
{
    *bytes = status_of(v);
}
