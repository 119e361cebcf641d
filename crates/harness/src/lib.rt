// The clippers as a static library over plain numbers and lists of any length, apart, as C hands them: for measuring and comparing only.
#![tactic(auto)]

ghost use Rattle.std.specs.Prelude.{◌≡◌, true, false};
ghost use Rattle.plane.specs.Rectangle.{rect};
ghost use Rattle.reference.specs.Entry.{clip_path, is_present};
ghost use Rattle.rectclip.specs.Promises.{lent};
ghost use Rattle.entry.specs.Answers.{value};
ghost use Rattle.harness.specs.Values.{presence_value, counted, Uncounted, Hands, ReturnedAt};

use entry::answer::{Refusal, value};
use entry::present::present;
use plane::rect::Rect64;
use rectclip::clip::clip;

// 0 no, 1 yes, 100 and the number for a refusal.
#[unsafe(no_mangle)]
pub extern "C" fn harness_present(left: i64, top: i64, right: i64, bottom: i64, path: &[i64]) -> u32
    ensures { result ≡ presence_value (is_present (rect left top right bottom) path.now) }
{
    match present(Rect64::new(left, top, right, bottom), path) {
        Ok(present) => u32::from(present),
        Err(why) => 100 + u32::from(why),
    }
}

// `RectClipLines64::execute`: 0 or the refusal's number; on 0 the first three counts are paths, points and turns.
#[unsafe(no_mangle)]
pub extern "C" fn harness_rect_clip_lines64(
    left: i64,
    top: i64,
    right: i64,
    bottom: i64,
    path: &[i64],
    store: &mut [i64],
    work: &mut [u32],
    coordinates: &mut [i64],
    lengths: &mut [u32],
    counts: &mut [u32],
) -> u32
    ensures hands { Hands (counted (lent coordinates.old lengths.old store.old work.old) counts.old (clip_path false 0 (rect left top right bottom) path.now (lent coordinates.old lengths.old store.old work.old))) result (lent coordinates.new lengths.new store.new work.new) counts.new }
    ensures returned { ReturnedAt false (rect left top right bottom) path.now result coordinates.new lengths.new counts.new }
{
    let rect = Rect64::new(left, top, right, bottom);
    value(clip_counted(
        false,
        0,
        rect,
        path,
        store,
        work,
        coordinates,
        lengths,
        counts,
    ))
}

// `RectClip64::execute`, with the turn allowance: otherwise as the line clipper's.
#[unsafe(no_mangle)]
pub extern "C" fn harness_rect_clip64(
    left: i64,
    top: i64,
    right: i64,
    bottom: i64,
    path: &[i64],
    allowance: u32,
    store: &mut [i64],
    work: &mut [u32],
    coordinates: &mut [i64],
    lengths: &mut [u32],
    counts: &mut [u32],
) -> u32
    ensures hands { Hands (counted (lent coordinates.old lengths.old store.old work.old) counts.old (clip_path true allowance (rect left top right bottom) path.now (lent coordinates.old lengths.old store.old work.old))) result (lent coordinates.new lengths.new store.new work.new) counts.new }
    ensures returned { ReturnedAt true (rect left top right bottom) path.now result coordinates.new lengths.new counts.new }
{
    let rect = Rect64::new(left, top, right, bottom);
    value(clip_counted(
        true,
        allowance,
        rect,
        path,
        store,
        work,
        coordinates,
        lengths,
        counts,
    ))
}

// On a result the first three counts are paths, points and turns.
fn clip_counted(
    closed: bool,
    allowance: u32,
    rect: Rect64,
    path: &[i64],
    store: &mut [i64],
    work: &mut [u32],
    coordinates: &mut [i64],
    lengths: &mut [u32],
    counts: &mut [u32],
) -> Result<(), Refusal>
    ensures hands { Hands (counted (lent coordinates.old lengths.old store.old work.old) counts.old (clip_path closed allowance rect path.now (lent coordinates.old lengths.old store.old work.old))) (value result) (lent coordinates.new lengths.new store.new work.new) counts.new }
    ensures returned { ReturnedAt closed rect path.now (value result) coordinates.new lengths.new counts.new }
{
    if counts.len() < 3 {
        return clip_uncounted(closed, allowance, rect, path, store, work);
    }
    let drawn = clip(
        closed,
        allowance,
        rect,
        path,
        store,
        work,
        coordinates,
        lengths,
    )?;
    // three stores: an array to copy from would name them as well
    counts[0] = drawn.paths;
    counts[1] = drawn.points;
    counts[2] = drawn.turns;
    Ok(())
}

// Where the counts have no place, the clipper is lent no room for a result.
fn clip_uncounted(
    closed: bool,
    allowance: u32,
    rect: Rect64,
    path: &[i64],
    store: &mut [i64],
    work: &mut [u32],
) -> Result<(), Refusal>
    ensures { Uncounted closed allowance rect path.now store.old work.old (value result) store.new work.new }
{
    clip(closed, allowance, rect, path, store, work, &mut [], &mut [])?;
    Err(Refusal::ListsTooShort)
}
