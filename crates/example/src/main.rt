// One shelf outline clipped to an owner's rectangle; prints the returned path.
#![tactic(auto)]

use entry::part::filled;
use plane::rect::Rect64;
use rectclip::rect_clip::RectClip64;
use std::io;
use text::writing::{write_path, write_refusal};

fn main(rt: HostRuntime) -> io::Result<()> {
    let path = [50i64, 50, 150, 50, 150, 80, 50, 80];
    let mut store = [0i64; 512];
    let mut work = [0u32; 8208];
    let mut coordinates = [0i64; 512];
    let mut lengths = [0u32; 257];
    let mut line = [0u8; 12288];
    let clipper = RectClip64::new(Rect64::new(0, 0, 100, 100));
    let answer = clipper.execute(
        &path,
        256,
        &mut store,
        &mut work,
        &mut coordinates,
        &mut lengths,
    );
    let written = match answer {
        Ok(counts) => {
            let part = filled(&mut coordinates, counts.points as usize);
            write_path(true, 1, part, &mut line)
        }
        Err(why) => write_refusal(1, i64::from(u32::from(why)), &mut line),
    };
    let n = written.ok_or(io::ErrorKind::WriteZero)?;
    rt.write_all(&line[..n])
}
