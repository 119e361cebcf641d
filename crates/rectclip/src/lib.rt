// The rectangle clippers: RectClip64 for closed paths and RectClipLines64 for open ones, of rectclip.rs.
// The public entries are total; what needs a bound is private.
#![tactic(auto)]

mod arena;
mod boundary;
mod call;
pub mod clip;
mod clipping;
mod closed;
mod corners;
mod deliver;
mod edges;
mod idle;
mod line_walk;
pub mod lines;
mod lists;
mod next;
mod nodes;
mod outline;
mod output;
mod pass;
mod paths;
mod pieces;
mod polygon;
pub mod rect_clip;
mod regroup;
mod ring;
mod rings;
mod search;
mod segment;
mod settle;
mod side;
mod tidy;
mod walk;
mod walked;
