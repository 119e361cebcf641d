// The replay program: each stored drawing is answered again, and the answer compared with the stored one. It prints the line of
// each drawing whose answer differs, then how many drawings there are and how many answers are as stored. A read that fails
// counts as the input's end, and a write that fails ends it.
#![tactic(auto)]

mod replay;

use program::input::Input;
use replay::Replay;
use std::io;
use std::io::{Print, Read};

// The drawings of the input, and then how many there are and how many answers are as stored.
fn replay_all<P: Print, R: Read>(rt: &P, input: &mut R) -> io::Result<()> {
    let mut replay = Replay::new(rt);
    Input::<65536>::new().visit_lines([0; 12289], input, 1, &mut replay)?;
    replay.settle()?;
    println!(rt; "{} drawings, {} as stored", replay.drawings, replay.same)
}

fn main(rt: HostRuntime) {
    // A write that fails ends the program, whose status stays 0.
    let _ = replay_all(&rt, &mut rt.stdin());
}
