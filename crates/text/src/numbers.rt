// Whether a line's numbers, each with a comma before it, fit.
ghost use Rattle.std.specs.Prelude.{◌≡◌, length};
ghost use Rattle.text.specs.Printing.{comma_numbers};
ghost use Rattle.text.specs.Putting.{room_after};

use crate::decimal::signed_length;

// What the numbers leave of `room` bytes; None where they need more.
pub(crate) fn room_after(list: &[i64], room: usize) -> Option<usize>
    ensures { result ≡ room_after room (length (comma_numbers list.now)) }
{
    let mut left = room;
    for z in list {
        left = left.checked_sub(signed_length(*z) + 1)?;
    }
    Some(left)
}
