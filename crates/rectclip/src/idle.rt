// Idle turns of `tidy_edges`: those that change no list, up to two edges that overlap or a clockwise entry that is not live.
ghost use Rattle.std.specs.Prelude.{◌≡◌, ◌<◌, IfSome};
ghost use Rattle.rectclip.specs.Arenas.{mark};
ghost use Rattle.rectclip.specs.Changes.{arena_of};
ghost use Rattle.rectclip.specs.Turns.{is_live, Sought, Idling, Idles};

use crate::arena::Arena;
use crate::settle::Turn;
use crate::side::EdgeList;

// How far the lists of a side are worked off, and how many turns are left.
#[derive(Clone, Copy)]
pub(crate) struct Progress {
    pub at: Turn,
    pub left: usize,
}

impl Arena<'_> {
    // Whether an entry is a node whose ring is no stub.
    pub(crate) fn is_live(&self, x: Option<usize>) -> bool
        requires { IfSome x (λ op. op < self.now.sizes.nodes) }
        ensures { result ≡ is_live (arena_of self.now) (mark x) }
    {
        // no `is_some_and`: of its closure, which holds the arena, the search does not find that it answers `!is_stub`
        match x {
            None => false,
            Some(op) => !self.is_stub(op),
        }
    }

    // The inner `while`: the first position from `from` on of the list whose entry is live. A `for` with a return, like the scan of next.rt.
    pub(crate) fn seek(&self, list: EdgeList, from: usize) -> usize
        ensures { Sought (arena_of self.now) list.idx from result }
    {
        let len = self.sizes.lens[list.idx];
        for j in from..len {
            if self.is_live(self.entry_of(list, j)) {
                return j;
            }
        }
        from.max(len)
    }

    // The idle turns at the live clockwise entry of `at`, as many as are allowed.
    pub(crate) fn idle_along(&self, mut at: Turn, allowed: usize) -> Progress
        requires { Idling self.now at }
        ensures turns { Idles self.now at allowed result }
        ensures entry { result.at.i ≡ at.i }
    {
        let ccw = at.side.ccw();
        let root1 = self.entry_of(at.side.cw(), at.i).unwrap();
        for taken in 0..allowed {
            let left = allowed - taken;
            at.j = self.seek(ccw, at.j);
            if self.sizes.lens[ccw.idx] <= at.j {
                return Progress { at, left };
            }
            let root2 = self.entry_of(ccw, at.j).unwrap();
            let f = self.four_of(at.side, root1, root2);
            if self.overlap(f) {
                return Progress { at, left };
            }
            at.j += 1;
        }
        Progress { at, left: 0 }
    }

    // The idle turns from `at` on, as many as are allowed.
    pub(crate) fn idle_turns(&self, at: Turn, allowed: usize) -> Progress
        ensures { Idles self.now at allowed result }
    {
        let cw = at.side.cw();
        let other = self.sizes.lens[at.side.ccw().idx];
        let mut progress = Progress { at, left: allowed };
        for i in at.i..self.sizes.lens[cw.idx] {
            if !self.is_live(self.entry_of(cw, i)) {
                return progress;
            }
            progress = self.idle_along(progress.at, progress.left);
            if progress.at.j < other || progress.left == 0 {
                return progress;
            }
            progress = Progress {
                at: Turn {
                    i: progress.at.i + 1,
                    j: 0,
                    ..progress.at
                },
                left: progress.left - 1,
            };
        }
        progress
    }
}
