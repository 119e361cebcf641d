// What is done with the lines of an input.
ghost use Rattle.std.specs.Prelude.{ℕ, ℤ, List, Result};
ghost use Rattle.std.specs.declared.io.Error.{Error};

use std::io;

pub trait Visitor {
    // What it answers to the line of a number, and what it is then.
    ghost gives: { Self → ℤ → List ℕ → Result (Unit {0}) Error → Self → Type 0 };

    fn visit(&mut self, number: i64, line: &[u8]) -> io::Result<()>
        ensures { gives self.old number line.now result self.new };
}
