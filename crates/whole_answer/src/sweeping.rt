//! The answer to `sweep`.
ghost use Rattle.std.specs.{Prelude.◌≡◌, Prelude.◌≤◌, Prelude.◌++◌, Prelude.[], Prelude.map, Prelude.IfOk, Prelude.OnOk, List.list_any};
ghost use Rattle.whole_answer.specs.{line, text_of_lines, best_of, best_tokens, first_ending, is_done_at, point_tokens, points_ending};
ghost use Rattle.whole_answer.specs.{swept, told_points};

use crate::answer::Answer;
use crate::ending::Ending;
use crate::refusing::{TOO_MANY_POINTS, refuse};
use depth_sweep::{Point, SweepFault, best, sweep};
use flow_design::{CheckedPlan, Verdict};
use flow_word::{List, OutOfMemory};
use report_text::{print_numbers, push_token, push_value, push_values, verdict_words};
use std::alloc::Global;
use std::thread::Threads;

/// The answer to `sweep`: the points of a plan's grid of depths, or a refusal where it has too many. `OutOfMemory` where memory ran
/// out.
pub(crate) fn sweep_depths<R: Threads + Sync>(
    rt: &R,
    alloc: Global,
    lo: u64,
    hi: u64,
    plan: CheckedPlan,
) -> Result<Answer, OutOfMemory>
    requires least { 1 ≤ lo }
    requires ordered { lo ≤ hi }
    requires most { hi ≤ 64 }
    ensures { IfOk result (λ whole. whole ≡ swept lo hi plan) }
{
    match sweep(rt, alloc, &plan, lo, hi) {
        Ok(points) => tell_points(alloc, points.as_slice()),
        Err(SweepFault::TooWide) => refuse(alloc, TOO_MANY_POINTS),
        Err(SweepFault::OutOfMemory) => Err(OutOfMemory),
    }
}

/// A line for each point, and the line of the best point. `OutOfMemory` where memory ran out.
fn tell_points(alloc: Global, points: &[Point]) -> Result<Answer, OutOfMemory>
    ensures { IfOk result (λ whole. whole ≡ told_points points.now) }
{
    let mut text = List::new(alloc);
    print_points(&mut text, points)?;
    print_best(&mut text, points)?;
    Ok(Answer {
        text,
        ending: points_ending(points),
    })
}

/// Adds a line for each point. After `OutOfMemory` the text may have some of them.
#[tactic(auto, using(report_text::proofs::LineLemmas::lines_more))]
fn print_points(text: &mut List<u8>, points: &[Point]) -> Result<(), OutOfMemory>
    ensures { OnOk result (text.new ≡ text.old ++ text_of_lines (map point_tokens points.now)) }
{
    for point in points {
        print_point(text, point)?;
    }
    Ok(())
}

/// Adds the line of a point: `point`, its depths, and its verdict. After `OutOfMemory` the text may have part of it.
#[tactic(auto, using(crate::proofs::PointLines::point_line))]
fn print_point(text: &mut List<u8>, point: &Point) -> Result<(), OutOfMemory>
    ensures { OnOk result (text.new ≡ text.old ++ line (point_tokens point.now)) }
{
    text.extend_from_slice(b"point")?;
    push_values(text, point.depths.as_slice())?;
    let (word, clock) = verdict_words(point.verdict);
    push_token(text, word)?;
    push_value(text, clock)?;
    text.push(b'\n')
}

/// Adds the line of the best point: `best` and its depths, or `best none`. After `OutOfMemory` the text may have part of it.
fn print_best(text: &mut List<u8>, points: &[Point]) -> Result<(), OutOfMemory>
    ensures { OnOk result (text.new ≡ text.old ++ line (best_tokens (best_of points.now))) }
{
    match best(points) {
        Some(place) => print_numbers(text, b"best", points[place as usize].depths.as_slice()),
        None => text.extend_from_slice(b"best none\n"),
    }
}

/// `Done` where some point is done, and otherwise the ending of the first point's verdict.
fn points_ending(points: &[Point]) -> Ending
    ensures { result ≡ points_ending points.now }
{
    if some_is_done(points) {
        Ending::Done
    } else {
        first_ending(points)
    }
}

/// Whether some point is done.
fn some_is_done(points: &[Point]) -> bool
    ensures { result ≡ list_any is_done_at points.now }
{
    points.iter().any(is_done)
}

/// The ending of the first point's verdict; `Done` where there are no points.
fn first_ending(points: &[Point]) -> Ending
    ensures { result ≡ first_ending points.now }
{
    match points {
        [] => Ending::Done,
        [first, ..] => Ending::of(first.verdict),
    }
}

/// Whether a point is done.
fn is_done(point: &Point) -> bool
    ensures { result ≡ is_done_at point.now }
{
    matches!(point.verdict, Verdict::Done(_))
}
