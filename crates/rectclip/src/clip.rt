// Both clippers, by the path's kind.
ghost use Rattle.rectclip.specs.Promises.{lent, ClipsPath};

use crate::lines::RectClipLines64;
use crate::rect_clip::RectClip64;
use entry::answer::Answer;
use plane::rect::Rect64;

// One path, closed or open; an open path takes no turns. The four lists are lent one by one, as the exported functions have them.
pub fn clip(
    closed: bool,
    allowance: u32,
    rect: Rect64,
    path: &[i64],
    store: &mut [i64],
    work: &mut [u32],
    coordinates: &mut [i64],
    lengths: &mut [u32],
) -> Answer
    ensures { ClipsPath closed allowance rect path.now (lent coordinates.old lengths.old store.old work.old) result (lent coordinates.new lengths.new store.new work.new) }
{
    if closed {
        let clipper = RectClip64::new(rect);
        return clipper.execute(path, allowance, store, work, coordinates, lengths);
    }
    let clipper = RectClipLines64::new(rect);
    clipper.execute(path, store, work, coordinates, lengths)
}
