// Offsets into one voice's configuration.
ghost use Rattle.std.specs.Prelude.{◌≡◌};
ghost use Rattle.fields.specs.Fields.{configuration, offset_of, total};

pub const DIRTY: usize = 0x00;

pub const GAIN: usize = 0x04;

pub const RATE_MULTIPLIER: usize = 0x34;

pub const INTERPOLATION: usize = 0x38;

pub const FILTERS_ENABLED: usize = 0x3A;

pub const SIMPLE_FILTER: usize = 0x3C;

pub const BIQUAD_FILTER: usize = 0x40;

pub const BUFFERS_DIRTY: usize = 0x4A;

pub const BUFFERS: usize = 0x4C;

pub const ENABLE: usize = 0xA0;

pub const SYNC_COUNT: usize = 0xA2;

pub const PLAY_POSITION: usize = 0xA4;

pub const ADDRESS: usize = 0xAC;

pub const LENGTH: usize = 0xB0;

pub const FLAGS1: usize = 0xB4;

pub const ADPCM_YN: usize = 0xB8;

pub const FLAGS2: usize = 0xBC;

pub const BUFFER_ID: usize = 0xBE;

pub const CONFIG_SIZE: usize = 192;

// Each constant is the offset of the field of its name, and the size is that of the table.
pub fn offsets()
    ensures dirty { DIRTY ≡ offset_of configuration "DIRTY" }
    ensures gain { GAIN ≡ offset_of configuration "GAIN" }
    ensures rate_multiplier { RATE_MULTIPLIER ≡ offset_of configuration "RATE_MULTIPLIER" }
    ensures interpolation { INTERPOLATION ≡ offset_of configuration "INTERPOLATION" }
    ensures filters_enabled { FILTERS_ENABLED ≡ offset_of configuration "FILTERS_ENABLED" }
    ensures simple_filter { SIMPLE_FILTER ≡ offset_of configuration "SIMPLE_FILTER" }
    ensures biquad_filter { BIQUAD_FILTER ≡ offset_of configuration "BIQUAD_FILTER" }
    ensures buffers_dirty { BUFFERS_DIRTY ≡ offset_of configuration "BUFFERS_DIRTY" }
    ensures buffers { BUFFERS ≡ offset_of configuration "BUFFERS" }
    ensures enable { ENABLE ≡ offset_of configuration "ENABLE" }
    ensures sync_count { SYNC_COUNT ≡ offset_of configuration "SYNC_COUNT" }
    ensures play_position { PLAY_POSITION ≡ offset_of configuration "PLAY_POSITION" }
    ensures address { ADDRESS ≡ offset_of configuration "ADDRESS" }
    ensures length { LENGTH ≡ offset_of configuration "LENGTH" }
    ensures flags1 { FLAGS1 ≡ offset_of configuration "FLAGS1" }
    ensures adpcm_yn { ADPCM_YN ≡ offset_of configuration "ADPCM_YN" }
    ensures flags2 { FLAGS2 ≡ offset_of configuration "FLAGS2" }
    ensures buffer_id { BUFFER_ID ≡ offset_of configuration "BUFFER_ID" }
    ensures config_size { CONFIG_SIZE ≡ total configuration }
{}
