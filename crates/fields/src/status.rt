// Offsets into one voice's status.
ghost use Rattle.std.specs.Prelude.{◌≡◌};
ghost use Rattle.fields.specs.Fields.{status, offset_of, total};

pub const ENABLED: usize = 0;

pub const BUFFER_UPDATE: usize = 1;

pub const SYNC_COUNT: usize = 2;

pub const POSITION: usize = 4;

pub const CURRENT_BUFFER_ID: usize = 8;

pub const LAST_BUFFER_ID: usize = 10;

pub const STATUS_SIZE: usize = 12;

// Each constant is the offset of the field of its name, and the size is that of the table.
pub fn offsets()
    ensures enabled { ENABLED ≡ offset_of status "ENABLED" }
    ensures buffer_update { BUFFER_UPDATE ≡ offset_of status "BUFFER_UPDATE" }
    ensures sync_count { SYNC_COUNT ≡ offset_of status "SYNC_COUNT" }
    ensures position { POSITION ≡ offset_of status "POSITION" }
    ensures current_buffer_id { CURRENT_BUFFER_ID ≡ offset_of status "CURRENT_BUFFER_ID" }
    ensures last_buffer_id { LAST_BUFFER_ID ≡ offset_of status "LAST_BUFFER_ID" }
    ensures status_size { STATUS_SIZE ≡ total status }
{}
