// `tidy_edges`: rings split and rejoined along a side, turn by turn.
ghost use Rattle.std.specs.Prelude.{◌≡◌, ℕ, ◌<◌, ◌≤◌, ◌-◌, ◌*◌, ltb, get_or};
ghost use Rattle.reference.specs.Tidy.{rejoin, one_turn, turn, turns_from, tidy_edges};
ghost use Rattle.rectclip.specs.Arenas.{Spare};
ghost use Rattle.rectclip.specs.Changes.{arena_of, pts_of};
ghost use Rattle.rectclip.specs.Turns.{four, Whole, Rejoining, TidiedAs, tidied_all};

use crate::arena::Arena;
use crate::regroup::Four;
use crate::settle::Turn;
use crate::side::Side;
use entry::answer::Refusal;

impl Arena<'_> {
    // "To get here we're either splitting or rejoining"
    pub(crate) fn rejoin(&mut self, at: Turn, root1: usize, root2: usize, f: Four) -> Turn
        requires { Rejoining self.old at root1 root2 f }
        ensures { Whole self.old self.new at result (rejoin (pts_of self.old) at.side.idx (arena_of self.old) at.i at.j root1 root2 (four f)) }
    {
        let owner1 = self.owner_of(root1);
        let owner2 = self.owner_of(root2);
        self.regroup(f, owner1 != owner2);
        let (op, op2) = if f.side.cw_is_toward_larger() {
            (f.p2, f.p1a)
        } else {
            (f.p1, f.p2a)
        };
        self.set_roots(op, op2);
        self.settle(at, op, op2)
    }

    // One turn: a pass of the outer `while`. `Spare` stays in the contracts here and below: each turn takes of the room that it speaks of.
    pub(crate) fn one_turn(&mut self, at: Turn) -> Turn
        requires { Spare self.old.sizes.slots 1 (arena_of self.old) × (at.i < get_or self.old.sizes.lens (at.side.idx * 2) 0) }
        ensures { Whole self.old self.new at result (one_turn (pts_of self.old) at.side.idx (arena_of self.old) at.i at.j) }
    {
        let cw = at.side.cw();
        let ccw = at.side.ccw();
        let next = Turn {
            i: at.i + 1,
            j: 0,
            ..at
        };
        let Some(root1) = self.entry_of(cw, at.i) else {
            return next;
        };
        if self.is_stub(root1) {
            self.set_entry(cw, at.i, None);
            return next;
        }
        let j = self.seek(ccw, at.j);
        if self.sizes.lens[ccw.idx] <= j {
            return next;
        }
        let root2 = self.entry_of(ccw, j).unwrap();
        let f = self.four_of(at.side, root1, root2);
        if self.overlap(f) {
            return self.rejoin(Turn { j, ..at }, root1, root2, f);
        }
        Turn { j: j + 1, ..at }
    }

    // Whether the clockwise list of the side is not worked off yet.
    pub(crate) fn is_left(&self, at: Turn) -> bool
        ensures { result ≡ ltb at.i (get_or self.now.sizes.lens (at.side.idx * 2) 0) }
    {
        at.i < self.sizes.lens[at.side.cw().idx]
    }

    // The `while`: turns are taken until the clockwise list is worked off or none is left of those allowed, idle ones together.
    // Here and below the answer is how many are left, and `all` is any allowance that those allowed are left of.
    pub(crate) fn take_turns(&mut self, side: Side, allowed: usize) -> Result<usize, Refusal>
        requires { Spare self.old.sizes.slots allowed (arena_of self.old) }
        ensures { (all : ℕ) → allowed ≤ all → TidiedAs self.old self.new allowed all result (turns_from (pts_of self.old) side.idx allowed (all - allowed) (turn (arena_of self.old) 0 0)) }
    {
        let mut at = Turn { side, i: 0, j: 0 };
        let mut left = allowed;
        // no `for`: a pass takes its idle turns and one more
        while left > 0 {
            let progress = self.idle_turns(at, left);
            if !self.is_left(progress.at) {
                return Ok(progress.left);
            }
            if progress.left == 0 {
                return Err(Refusal::TurnsSpent);
            }
            at = self.one_turn(progress.at);
            left = progress.left - 1;
        }
        if self.is_left(at) {
            return Err(Refusal::TurnsSpent);
        }
        Ok(0)
    }

    // `tidy_edges` of a side, of which so many turns are allowed.
    pub(crate) fn tidy_edges(&mut self, side: Side, allowed: usize) -> Result<usize, Refusal>
        requires { Spare self.old.sizes.slots allowed (arena_of self.old) }
        ensures { (all : ℕ) → allowed ≤ all → TidiedAs self.old self.new allowed all result (tidy_edges (pts_of self.old) side.idx all (arena_of self.old, all - allowed)) }
    {
        let ccw = side.ccw();
        if self.sizes.lens[ccw.idx] == 0 {
            return Ok(allowed);
        }
        self.take_turns(side, allowed)
    }

    // All four sides, in their order.
    pub(crate) fn tidy_all(&mut self, allowance: usize) -> Result<usize, Refusal>
        requires { Spare self.old.sizes.slots allowance (arena_of self.old) }
        ensures { TidiedAs self.old self.new allowance allowance result (tidied_all (pts_of self.old) allowance (arena_of self.old)) }
    {
        let mut left = allowance;
        for idx in 0..4 {
            left = self.tidy_edges(Side { idx }, left)?;
        }
        Ok(left)
    }
}
