// `RectClipLines64`: one open path clipped to a rectangle.
ghost use Rattle.std.specs.Prelude.{◌≡◌, false, ◌/◌, length};
ghost use Rattle.rectclip.specs.Promises.{lent, line_drawing, ClipsPath};
ghost use Rattle.rectclip.specs.Delivering.{SameCall, Gives};

use crate::call::Call;
use crate::deliver::{deliver_lines, no_paths};
use crate::output::Output;
use crate::walk::{WalkState, Walker};
use entry::admission::admit;
use entry::answer::Answer;
use plane::rect::Rect64;

// The clipper of open paths, for one rectangle. Its `execute` and that of RectClip64 differ in one call and in the turns allowed: one
// function for both would take these two beside the rectangle and the lists, and say no more.
#[derive(Clone, Copy)]
pub struct RectClipLines64 {
    pub rect: Rect64,
}

impl Call<'_> {
    // The path is walked, unless the rectangle is empty or the path's bounds miss it.
    fn draw_lines(&mut self, output: &mut Output) -> Answer
        ensures same { SameCall self.old self.new }
        ensures gives { Gives (line_drawing self.old.rect self.old.path.now (length self.old.store.now / 2)) output.old result output.new }
    {
        if self.rect.is_empty() {
            return no_paths();
        }
        if !self.rect.intersects(self.bounds) {
            return no_paths();
        }
        let mut walker = Walker {
            rect: self.rect,
            path: self.path,
            store: self.store,
            work: self.work,
            state: WalkState::new(),
        };
        walker.walk_open()?;
        deliver_lines(&walker, output)
    }
}

impl RectClipLines64 {
    pub fn new(rect: Rect64) -> RectClipLines64
        ensures { result.rect ≡ rect }
    {
        RectClipLines64 { rect }
    }

    // Clips one open path. The caller lends a store of i64 (two for each point), a work list of u32 (16 for each of those points
    // and 16 more), and the lists for the result: coordinates, and the length of each path.
    pub fn execute(
        self,
        path: &[i64],
        store: &mut [i64],
        work: &mut [u32],
        coordinates: &mut [i64],
        lengths: &mut [u32],
    ) -> Answer
        ensures { ClipsPath false 0 self.rect path.now (lent coordinates.old lengths.old store.old work.old) result (lent coordinates.new lengths.new store.new work.new) }
    {
        let bounds = admit(self.rect, path, store.len() / 2, 0, work.len())?;
        let mut call = Call {
            rect: self.rect,
            path,
            bounds,
            allowance: 0,
            store,
            work,
        };
        let mut output = Output::new(coordinates, lengths);
        let answer = call.draw_lines(&mut output);
        call.clear();
        answer
    }
}
