// The filled part of the caller's own coordinate list.
ghost use Rattle.entry.specs.Part.{FilledPart};

// The coordinates of so many points, at the front of the list; no entry where the list cannot hold them.
// By two ranges: of what `get_mut(..end)` answers no fact gives the address, and an empty list of its own would have another.
pub fn filled(coordinates: &mut [i64], points: usize) -> &mut [i64]
    ensures { FilledPart coordinates.old coordinates.entry.ref_ptr points result.now result.ref_ptr }
{
    let room = coordinates.len() / 2;
    if points <= room {
        let end = 2 * points;
        return &mut coordinates[..end];
    }
    &mut coordinates[..0]
}
