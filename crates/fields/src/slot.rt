// Offsets into one queue slot of a voice's configuration.
ghost use Rattle.std.specs.Prelude.{◌≡◌};
ghost use Rattle.fields.specs.Fields.{slot, offset_of, total};

pub const ADDRESS: usize = 0;

pub const LENGTH: usize = 4;

pub const ADPCM_YN: usize = 10;

pub const HAS_ADPCM: usize = 14;

pub const LOOPING: usize = 15;

pub const BUFFER_ID: usize = 16;

pub const BUFFER_SIZE: usize = 20;

// Each constant is the offset of the field of its name, and the size is that of the table.
pub fn offsets()
    ensures address { ADDRESS ≡ offset_of slot "ADDRESS" }
    ensures length { LENGTH ≡ offset_of slot "LENGTH" }
    ensures adpcm_yn { ADPCM_YN ≡ offset_of slot "ADPCM_YN" }
    ensures has_adpcm { HAS_ADPCM ≡ offset_of slot "HAS_ADPCM" }
    ensures looping { LOOPING ≡ offset_of slot "LOOPING" }
    ensures buffer_id { BUFFER_ID ≡ offset_of slot "BUFFER_ID" }
    ensures buffer_size { BUFFER_SIZE ≡ total slot }
{}
