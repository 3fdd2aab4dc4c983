//! What one slot shows.
ghost use Rattle.std.specs.Prelude.{◌≡◌};
ghost use Rattle.sacn_patch.specs.Parts.{part_of_level, high_part, low_part, octet_place};

/// Which octet of a level's sixteen bits a slot shows.
#[derive(Clone, Copy)]
pub(crate) enum LevelByte {
    High,
    Low,
}

/// One octet of a channel's level.
#[derive(Clone, Copy)]
pub(crate) struct Part {
    pub(crate) channel: u16,
    pub(crate) byte: LevelByte,
}

/// The high octet of a channel's level.
pub(crate) fn high_part(channel: u16) -> Part
    ensures { result ≡ high_part channel }
{
    Part {
        channel,
        byte: LevelByte::High,
    }
}

/// The low octet of a channel's level.
pub(crate) fn low_part(channel: u16) -> Part
    ensures { result ≡ low_part channel }
{
    Part {
        channel,
        byte: LevelByte::Low,
    }
}

/// That octet of this level.
pub(crate) fn byte_of(part: Part, level: u16) -> u8
    ensures { result ≡ part_of_level level part }
{
    match part.byte {
        LevelByte::High => (level / 256) as u8,
        LevelByte::Low => (level % 256) as u8,
    }
}

/// Where that octet stands among the octets of all levels.
pub(crate) fn octet_place(part: Part) -> u32
    ensures { result ≡ octet_place part }
{
    match part.byte {
        LevelByte::High => 2 * part.channel as u32,
        LevelByte::Low => 2 * part.channel as u32 + 1,
    }
}
