// The line clipper's results as paths: those of more than one point, counted and written out.
ghost use Rattle.std.specs.Prelude.{◌≡◌, ◌<◌};
ghost use Rattle.rectclip.specs.Outputs.{Takes, Written};
ghost use Rattle.rectclip.specs.Pieces.{paths_of, start_of, piece, Tallied};
ghost use Rattle.rectclip.specs.Steps.{walk};

use crate::lists::{RESULT, get};
use crate::output::Output;
use crate::paths::Tally;
use crate::walk::Walker;

impl Walker<'_> {
    // Where result `j` starts; behind the last result, where the points end.
    fn start_of(&self, j: usize) -> usize
        ensures { result ≡ start_of self.now.work.now self.now.state j }
    {
        if j < self.state.starts {
            return get(self.work, RESULT, j);
        }
        self.state.points
    }

    // The points of result `j`.
    fn piece(&self, j: usize) -> &[i64]
        requires { j < self.now.state.starts }
        ensures { result.now ≡ piece self.now j }
    {
        &self.store[2 * self.start_of(j)..2 * self.start_of(j + 1)]
    }

    // The paths that are returned, counted.
    pub(crate) fn count_pieces(&self) -> Tally
        ensures { Tallied self.now result }
    {
        let mut tally = Tally::new();
        for j in 0..self.state.starts {
            let n = self.piece(j).len() / 2;
            if 1 < n {
                tally.paths += 1;
                tally.points += n;
            }
        }
        tally
    }

    // The paths that are returned, written behind those so far. A loop of its own behind `count_pieces`: refusal 11 writes nothing.
    pub(crate) fn write_pieces(&self, output: &mut Output)
        requires { Takes output.old (paths_of (walk self.now)) }
        ensures { Written output.old output.new (paths_of (walk self.now)) }
    {
        for j in 0..self.state.starts {
            let piece = self.piece(j);
            if 2 < piece.len() {
                output.put_path(piece);
            }
        }
    }
}
