// `RectClip64`: one closed path clipped to a rectangle.
ghost use Rattle.std.specs.Prelude.{◌≡◌, true, ◌/◌, length, T};
ghost use Rattle.plane.specs.Points.{points_of};
ghost use Rattle.reference.specs.Walk.{no_room};
ghost use Rattle.reference.specs.Clip.{clip_walked, execute};
ghost use Rattle.theorems.specs.Demand.{is_walked};
ghost use Rattle.rectclip.specs.Promises.{lent, ClipsPath};
ghost use Rattle.rectclip.specs.Delivering.{walked_of, walk_drawing, SameCall, Gives, OutlineClips};

use crate::call::Call;
use crate::deliver::{deliver_copy, no_paths};
use crate::outline::{Outline, walk_closed};
use crate::output::Output;
use crate::walked::walked_arena;
use entry::admission::admit;
use entry::answer::Answer;
use plane::rect::Rect64;

// The clipper of closed paths, for one rectangle.
#[derive(Clone, Copy)]
pub struct RectClip64 {
    pub rect: Rect64,
}

impl Call<'_> {
    // The walked outline is clipped and handed out.
    fn clip_outline(&mut self, o: Outline, output: &mut Output) -> Answer
        requires { OutlineClips self.old o }
        ensures same { SameCall self.old self.new }
        ensures gives { Gives (clip_walked self.old.allowance self.old.rect (walked_of self.old.store.now self.old.work.now o)) output.old result output.new }
    {
        let slots = self.store.len() / 2 + self.allowance + 1;
        let mut arena = walked_arena(self.store, self.work, slots, o);
        let clipped = arena.clip_arena(self.rect, self.allowance)?;
        arena.deliver_paths(clipped, output)
    }

    // The path is walked, and its outline clipped.
    fn clip_path(&mut self, output: &mut Output) -> Answer
        requires { T (is_walked self.old.rect (points_of self.old.path.now)) }
        ensures same { SameCall self.old self.new }
        ensures gives { Gives (walk_drawing (no_room (length self.old.store.now / 2)) self.old.allowance self.old.rect (points_of self.old.path.now)) output.old result output.new }
    {
        let o = walk_closed(self.rect, self.path, self.bounds, self.store, self.work)?;
        self.clip_outline(o, output)
    }

    // Nothing under an empty rectangle, of less than three points, and of bounds that miss it; the path itself where its bounds are in
    // the rectangle; else the path is walked.
    fn draw_closed(&mut self, output: &mut Output) -> Answer
        ensures same { SameCall self.old self.new }
        ensures gives { Gives (execute (no_room (length self.old.store.now / 2)) self.old.allowance self.old.rect (points_of self.old.path.now)) output.old result output.new }
    {
        if self.rect.is_empty() {
            return no_paths();
        }
        if self.path.len() / 2 < 3 {
            return no_paths();
        }
        if !self.rect.intersects(self.bounds) {
            return no_paths();
        }
        if self.rect.contains_rect(self.bounds) {
            return deliver_copy(self.path, output);
        }
        self.clip_path(output)
    }
}

impl RectClip64 {
    pub fn new(rect: Rect64) -> RectClip64
        ensures { result.rect ≡ rect }
    {
        RectClip64 { rect }
    }

    // Clips one closed path, with at most `allowance` turns. The caller lends a store of i64 (two for each point), a work list of u32
    // (16 for each of those points and of the turns allowed, and 16 more), and the lists for the result: coordinates, and the length
    // of each path.
    pub fn execute(
        self,
        path: &[i64],
        allowance: u32,
        store: &mut [i64],
        work: &mut [u32],
        coordinates: &mut [i64],
        lengths: &mut [u32],
    ) -> Answer
        ensures { ClipsPath true allowance self.rect path.now (lent coordinates.old lengths.old store.old work.old) result (lent coordinates.new lengths.new store.new work.new) }
    {
        let most = allowance as usize;
        let bounds = admit(self.rect, path, store.len() / 2, most, work.len())?;
        let mut call = Call {
            rect: self.rect,
            path,
            bounds,
            allowance: most,
            store,
            work,
        };
        let mut output = Output::new(coordinates, lengths);
        let answer = call.draw_closed(&mut output);
        call.clear();
        answer
    }
}
