// The caller's two lists for a result, its coordinates and the length of each path, with how much of them is filled.
ghost use Rattle.std.specs.Prelude.{◌*◌, ◌≤◌, length};

use crate::lists::{point_at, put_point};
use plane::point::Point64;

#[derive(Drop)]
pub(crate) struct Output<'a> {
    pub(crate) coordinates: &'a mut [i64],
    pub(crate) lengths: &'a mut [u32],
    pub(crate) paths: usize,
    pub(crate) points: usize,
    ghost points_in: { 2 * points ≤ length coordinates.now },
    ghost paths_in: { paths ≤ length lengths.now },
}

impl<'a> Output<'a> {
    ghost use Rattle.std.specs.Prelude.{◌≡◌, [], ◌∷◌, ◌+◌, ◌<◌};
    ghost use Rattle.plane.specs.Points.{points_of};
    ghost use Rattle.rectclip.specs.Outputs.{Unfilled, Pointed, Ended, Puts, Written};

    // The lists with nothing filled yet.
    pub(crate) fn new(coordinates: &'a mut [i64], lengths: &'a mut [u32]) -> Output<'a>
        ensures unfilled { Unfilled result }
        ensures lists { (result.coordinates.now ≡ coordinates.old) × (result.lengths.now ≡ lengths.old) }
        ensures names { (result.coordinates.ghost_name ≡ coordinates.entry.ghost_name) × (result.lengths.ghost_name ≡ lengths.entry.ghost_name) }
    {
        Output {
            coordinates,
            lengths,
            paths: 0,
            points: 0,
        }
    }

    // One point more, of a path that ends later.
    pub(crate) fn put_point(&mut self, p: Point64)
        requires { 2 * self.old.points + 1 < length self.old.coordinates.now }
        ensures { Pointed self.old self.new (p ∷ []) }
    {
        put_point(self.coordinates, self.points, p);
        self.points += 1;
    }

    // The last `n` points are a path.
    pub(crate) fn end_path(&mut self, n: usize)
        requires { (self.old.paths < length self.old.lengths.now) × (n < 4294967296) }
        ensures { Ended self.old self.new n }
    {
        self.lengths[self.paths] = n as u32;
        self.paths += 1;
    }

    // A whole path, point by point: for `copy_from_slice` an archive for C would need `memmove` from outside.
    pub(crate) fn put_path(&mut self, path: &[i64])
        requires { Puts self.old path.now }
        ensures { Written self.old self.new (points_of path.now ∷ []) }
    {
        let n = path.len() / 2;
        for i in 0..n {
            self.put_point(point_at(path, i));
        }
        self.end_path(n);
    }
}
