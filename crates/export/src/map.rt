// The numbers of the maps (crates/paper/specs/Promises.antt), as a caller in C gives them.
ghost use Rattle.std.specs.Prelude.{◌≡◌};
ghost use Rattle.export.specs.Numbered.{map_numbered};

use paper::Map;

pub const OBJECTS: u16 = 1;

pub const SUBJECTS: u16 = 2;

// The map of a number. No other number is a map's.
pub fn numbered(number: u16) -> Option<Map>
    ensures { result ≡ map_numbered number }
{
    match number {
        OBJECTS => Some(Map::Objects),
        SUBJECTS => Some(Map::Subjects),
        _ => None,
    }
}
