// Sides and groups, by a box's byte.
ghost use Rattle.std.specs.Prelude.{◌≡◌, ◌&&◌, ◌%◌, ◌<◌};
ghost use Rattle.tables.specs.Rows.{side_of, is_group, on_side};

use super::BoxRow;

// The side that a box's byte puts it on.
pub fn side_of(byte: u8) -> u8
    ensures { result ≡ side_of byte }
{
    byte % 2
}

// Whether the byte is that of a user group or a folder.
pub fn is_group(byte: u8) -> bool
    ensures { result ≡ is_group byte }
{
    BoxRow::GROUP <= byte
}

// Whether b is a box of the side.
pub fn on_side(boxes: &[u8], side: u8, b: usize) -> bool
    ensures { result ≡ on_side boxes.now side b }
{
    b < boxes.len() && side_of(boxes[b]) == side
}
