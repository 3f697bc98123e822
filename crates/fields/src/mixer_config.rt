// Offsets into the mixer's configuration.
ghost use Rattle.std.specs.Prelude.{◌≡◌};
ghost use Rattle.fields.specs.Fields.{mixer_configuration, offset_of, total};

pub const DIRTY: usize = 0x00;

pub const MASTER_VOLUME: usize = 0x04;

pub const AUX_RETURN_VOLUME: usize = 0x08;

pub const OUTPUT_FORMAT: usize = 0x16;

pub const AUX_BUS_ENABLE: usize = 0x28;

pub const CONFIG_SIZE: usize = 44;

// Each constant is the offset of the field of its name, and the size is that of the table.
pub fn offsets()
    ensures dirty { DIRTY ≡ offset_of mixer_configuration "DIRTY" }
    ensures master_volume { MASTER_VOLUME ≡ offset_of mixer_configuration "MASTER_VOLUME" }
    ensures aux_return_volume { AUX_RETURN_VOLUME ≡ offset_of mixer_configuration "AUX_RETURN_VOLUME" }
    ensures output_format { OUTPUT_FORMAT ≡ offset_of mixer_configuration "OUTPUT_FORMAT" }
    ensures aux_bus_enable { AUX_BUS_ENABLE ≡ offset_of mixer_configuration "AUX_BUS_ENABLE" }
    ensures config_size { CONFIG_SIZE ≡ total mixer_configuration }
{}
