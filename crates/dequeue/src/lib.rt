// Of module 5, the start of the next entry. `dequeue` takes a record, the window, and the voice's lane. It looks for the first entry of
// smallest id; where none is queued it gives `None`. Otherwise the entry leaves the queue unless it loops, the record's counters and
// history are set for it, and ADPCM is decoded into the lane then and there. Nothing is refused: `dequeue` asks that no more is queued than
// a record has room for and that each queued ADPCM entry fits the lane, which a record that is not malformed has.
#![tactic(auto)]

ghost use Rattle.std.specs.Prelude.{false, ◌≡◌, ◌*◌, ◌≤◌, ◌<◌, length, is_some, unwrap_or};
ghost use Rattle.adpcm.specs.Code.{frames_of};
ghost use Rattle.adpcm.specs.Sizes.{frame_bytes, most_samples};
ghost use Rattle.voice.specs.Blank.{limit};
ghost use Rattle.voice.specs.Long.{too_long, any_too_long};
ghost use Rattle.voice.specs.Malformed.{queued_in};
ghost use Rattle.dequeue.specs.Dequeue.{taken, start_of, begun, aligned, decodable, decoded_voice, decoded_lane};
ghost use Rattle.dequeue.specs.Dequeue.{prepared_voice, prepared_lane, dequeued, dequeued_lane};

use adpcm::decode_adpcm;
use queue::{mark_played, remove, search, was_played};
use voice::malformed::is_adpcm;
use voice::record::{Entry, Voice};
use window::Window;

// The entry at a place leaves the queue, or, where it loops, is marked as played.
#[tactic(auto, unfolding(crate::specs::Dequeue::taken))]
fn take(mut v: Voice, place: usize) -> Voice
    requires place_lt_queued { place < v.queued }
    requires queued_le_limit { v.queued ≤ limit }
    ensures { result ≡ taken place v }
{
    let e = v.queue[place];
    if e.looping {
        v.queue[place] = mark_played(e);
        return v;
    }
    remove(v, place)
}

// Where an entry starts.
#[tactic(auto, unfolding(crate::specs::Dequeue::start_of))]
fn start_of(e: Entry) -> u32
    ensures start { result ≡ start_of e }
    ensures within { result ≤ e.length }
{
    if was_played(e) {
        return 0;
    }
    e.play_position.min(e.length)
}

// The record with an entry that begins. Stores go to the record in its place, since a whole one is long to build.
#[tactic(auto, unfolding(crate::specs::Dequeue::begun, crate::specs::Dequeue::begun_at, crate::specs::Dequeue::with_history))]
fn begin(mut v: Voice, e: Entry) -> Voice
    ensures { result ≡ begun e v }
{
    let start = start_of(e);
    v.length = e.length;
    v.remaining = e.length - start;
    v.position = start;
    v.fraction = 0.0;
    v.current_buffer_id = e.id;
    v.last_buffer_id = 0;
    v.buffer_update = e.from_queue && !was_played(e);
    v.has_playing = true;
    v.playing = e;
    if e.has_adpcm {
        v.history = e.adpcm;
    }
    v
}

// An address with its low two bits cleared.
#[tactic(auto, unfolding(crate::specs::Dequeue::aligned))]
pub fn align(address: u32) -> u32
    ensures { result ≡ aligned address }
{
    address / 4 * 4
}

// How many bytes an entry of ADPCM has.
fn bytes_of(e: Entry) -> u32
    ensures { result ≡ frames_of e.length * frame_bytes }
{
    adpcm::bytes_of(e.length as usize) as u32
}

// Whether an entry is ADPCM and all of its bytes are present.
#[tactic(auto, unfolding(crate::specs::Dequeue::decodable))]
fn decodable(window: Window<'_>, e: Entry) -> bool
    ensures { result ≡ decodable window.entry.bytes.now window.entry.base e }
{
    is_adpcm(e.format) && window.present(align(e.address), bytes_of(e))
}

// Decodes as many samples as there is lane handed, on from the record's history.
#[tactic(auto, using(adpcm::proofs::Nine::well), unfolding(crate::specs::Dequeue::decoded_voice, crate::specs::Dequeue::decoded_lane))]
fn decode(v: Voice, bytes: &[u8], lane: &mut [i16]) -> Voice
    requires bytes_len { length bytes.now ≡ frames_of (length lane.old) * frame_bytes }
    requires short_lane { length lane.old ≤ most_samples }
    ensures record { result ≡ decoded_voice bytes.now (length lane.old) v }
    ensures lane { lane.new ≡ decoded_lane bytes.now (length lane.old) v lane.old }
{
    // a copy, since the history is lent beside the coefficients of the same record
    let mut w = v;
    let count = lane.len();
    // the decoder refuses nothing here: the bytes are the count's whole frames, and the lane has room
    let _ = decode_adpcm(bytes, count, &v.coefficients, &mut w.history, lane);
    w.decoded = count as u32;
    w
}

// Has an entry's samples decoded, where it is ADPCM and all of its bytes are present.
#[tactic(auto, unfolding(crate::specs::Dequeue::prepared_voice, crate::specs::Dequeue::prepared_lane))]
fn prepare(mut v: Voice, e: Entry, window: Window<'_>, lane: &mut [i16]) -> Voice
    requires entry_fits { too_long (length lane.old) e ≡ false }
    requires short_lane { length lane.old ≤ most_samples }
    ensures record { result ≡ prepared_voice window.entry.bytes.now window.entry.base e v }
    ensures lane { lane.new ≡ prepared_lane window.entry.bytes.now window.entry.base e v lane.old }
{
    if !decodable(window, e) {
        v.decoded = 0;
        return v;
    }
    let bytes = window.physical(align(e.address), bytes_of(e));
    decode(v, bytes, &mut lane[..e.length as usize])
}

// Starts the next entry, where one is queued. That no more is queued than fits, and that what is queued fits the lane, are asked for and no
// ghost facts of `Voice`: document 01's record may be malformed. The lane's bound is asked for too: a lane of variable length has no array
// type, and a ghost fact of a struct that holds a `&mut` is not covered.
#[tactic(auto, using(queue::proofs::Least::searched_cut), unfolding(crate::specs::Dequeue::dequeued, crate::specs::Dequeue::dequeued_lane))]
pub fn dequeue(v: Voice, window: Window<'_>, lane: &mut [i16]) -> Option<Voice>
    requires queued_le_limit { v.queued ≤ limit }
    requires entries_fit { any_too_long (length lane.old) (queued_in v) ≡ false }
    requires short_lane { length lane.old ≤ most_samples }
    ensures found { is_some result ≡ (dequeued window.entry.bytes.now window.entry.base v).found }
    ensures record { unwrap_or result v ≡ (dequeued window.entry.bytes.now window.entry.base v).voice }
    ensures lane { lane.new ≡ dequeued_lane window.entry.bytes.now window.entry.base v lane.old }
{
    // document 01 has the search's answer taken apart so
    let Some(place) = search(&v.queue[..v.queued]) else {
        return None;
    };
    let e = v.queue[place];
    let w = begin(take(v, place), e);
    Some(prepare(w, e, window, lane))
}
