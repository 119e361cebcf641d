// `get_path` for all results: rings straightened, counted, and read out into the caller's lists.
ghost use Rattle.std.specs.Prelude.{◌≡◌, [], ◌∷◌, ◌<◌, ◌≤◌, ◌+◌, ◌*◌, IfSome};
ghost use Rattle.plane.specs.Basics.{upwards};
ghost use Rattle.reference.specs.Clip.{get_path};
ghost use Rattle.rectclip.specs.Arenas.{mark};
ghost use Rattle.rectclip.specs.Changes.{arena_of, pts_of, Leaves};
ghost use Rattle.rectclip.specs.Outputs.{Takes, Written};
ghost use Rattle.rectclip.specs.Paths.{points_left, points_behind, Started, Counted, CountsOn, CountedAll, Reading, Read, straighten_results, nodes_of, nodes_read, paths_at};

use crate::arena::Arena;
use crate::nodes::Nodes;
use crate::output::Output;

// How many paths and points there are.
#[derive(Clone, Copy)]
pub(crate) struct Tally {
    pub paths: usize,
    pub points: usize,
}

impl Tally {
    // None yet.
    pub(crate) fn new() -> Tally
        ensures { result ≡ record { paths = 0; points = 0 } }
    {
        Tally {
            paths: 0,
            points: 0,
        }
    }
}

impl Arena<'_> {
    // `get_path` up to where the points are read: the start of the ring of `op` afterwards, if anything is left of it.
    pub(crate) fn get_start(&mut self, op: Option<usize>) -> Option<usize>
        requires { IfSome op (λ i. i < self.old.sizes.nodes) }
        ensures { Started self.old self.new result (get_path (pts_of self.old) (arena_of self.old) (mark op)) }
    {
        let op = op?;
        if self.is_stub(op) {
            return None;
        }
        let start = self.straighten(op)?;
        if self.is_stub(start) {
            return None;
        }
        Some(start)
    }

    // Every result's ring is straightened, and the result is its start.
    pub(crate) fn straighten_results(&mut self)
        ensures { Leaves self.old self.new (straighten_results (pts_of self.old) (arena_of self.old) (upwards 0 self.old.sizes.results)) }
    {
        for i in 0..self.sizes.results {
            let op = self.result_of(i);
            let start = self.get_start(op);
            self.set_result(i, start);
        }
    }

    // The points of the ring of `start` behind that of `start` itself.
    pub(crate) fn points_behind(&self, start: usize) -> Nodes<'_, '_>
        requires { start < self.now.sizes.nodes }
        ensures { points_left result ≡ points_behind self.now start }
    {
        Nodes {
            arena: self,
            start,
            at: start,
            left: self.sizes.nodes,
        }
    }

    // How many nodes the ring of `start` has.
    pub(crate) fn count_nodes(&self, start: usize) -> usize
        requires { start < self.now.sizes.nodes }
        ensures { Counted self.now.sizes.nodes result (nodes_of self.now.sizes.nodes (arena_of self.now) start) }
    {
        self.points_behind(start).count() + 1
    }

    // The counts with those of result `i` added.
    pub(crate) fn count_result(&self, i: usize, so_far: Tally) -> Tally
        requires { (i < self.now.sizes.results) × (so_far.paths ≤ i) × (so_far.points ≤ i * (self.now.sizes.nodes + 1)) }
        ensures { CountsOn (arena_of self.now) self.now.sizes i so_far result }
    {
        let Some(start) = self.result_of(i) else {
            return so_far;
        };
        let count = self.count_nodes(start);
        Tally {
            paths: so_far.paths + 1,
            points: so_far.points + count,
        }
    }

    // How many paths and points the rings have, once they are straightened.
    pub(crate) fn count_paths(&self) -> Tally
        ensures { CountedAll result (nodes_read self.now.sizes.nodes (arena_of self.now) (upwards 0 self.now.sizes.results)) }
    {
        let mut so_far = Tally::new();
        for i in 0..self.sizes.results {
            so_far = self.count_result(i, so_far);
        }
        so_far
    }

    // The points of the ring of `start`: how many there are.
    pub(crate) fn read_points(&self, start: usize, output: &mut Output) -> usize
        requires { Reading output.old (nodes_of self.now.sizes.nodes (arena_of self.now) start) × (start < self.now.sizes.nodes) }
        ensures { Read output.old output.new result (pts_of self.now) (nodes_of self.now.sizes.nodes (arena_of self.now) start) }
    {
        let before = output.points;
        output.put_point(self.point_of(start));
        for p in self.points_behind(start) {
            output.put_point(p);
        }
        output.points - before
    }

    // The path of result `i`, if it has a start. `Takes` stays in the contracts here, below and in pieces.rt: it is of an output and the paths
    // that are to be written, which are known once they are counted.
    pub(crate) fn read_result(&self, i: usize, output: &mut Output)
        requires { Takes output.old (paths_at self.now (i ∷ [])) × (i < self.now.sizes.results) }
        ensures { Written output.old output.new (paths_at self.now (i ∷ [])) }
    {
        let Some(start) = self.result_of(i) else {
            return;
        };
        let n = self.read_points(start, output);
        output.end_path(n);
    }

    // All paths, once the rings are straightened and the lists are known to hold them.
    // A loop of its own behind `count_paths`: refusal 11 writes nothing.
    pub(crate) fn read_paths(&self, output: &mut Output)
        requires { Takes output.old (paths_at self.now (upwards 0 self.now.sizes.results)) }
        ensures { Written output.old output.new (paths_at self.now (upwards 0 self.now.sizes.results)) }
    {
        for i in 0..self.sizes.results {
            self.read_result(i, output);
        }
    }
}
