//! How an arrow passes the lifelines of other modules: in a small bow round where it would cross
//! them, on the side on which no dot stands.
ghost use Rattle.std.specs.Prelude.{◌≡◌};
ghost use Rattle.cip_drawing.specs.Passed.{count_left_of};

use crate::layout::{Heights, LEFT, SPACING, x_of};
use crate::line::Line;
use crate::model::Chart;
use cip_base::NoMemory;
use cip_text::Draft;
use std::alloc::Global;

// How far a bow is from where the line would cross.
const REACH: u64 = 8;

// A dot so far above the crossing, or less, has the bow below it.
const NEAR: u64 = 14;

// How many lifelines stand left of a place.
fn count_left_of(x: u64) -> u64
    ensures { result ≡ count_left_of x }
{
    if x <= LEFT {
        return 0;
    }
    (x - LEFT - 1) / SPACING + 1
}

/// Where the dots of each lifeline stand, from above.
#[derive(Drop)]
pub(crate) struct Dots {
    columns: Vec<Vec<u64>>,
}

impl Dots {
    /// The dots of a chart.
    pub(crate) fn of(
        alloc: Global,
        chart: &Chart<'_>,
        heights: &Heights,
    ) -> Result<Dots, NoMemory> {
        let mut columns = Vec::new(alloc);
        for _ in chart.columns.iter().flatten() {
            columns.push(Vec::new(alloc))?;
        }
        for (row, y) in chart.rows.iter().zip(heights.rows.iter()) {
            if let (false, Some(column)) = (row.is_folded, row.column) {
                if let Some(dots) = columns.get_mut(column) {
                    dots.push(*y)?;
                }
            }
        }
        Ok(Dots { columns })
    }

    // The last dot of a lifeline above a height.
    fn last_above(&self, column: usize, y: u64) -> Option<u64> {
        let dots = self.columns.get(column)?;
        let (mut first, mut end) = (0, dots.len());
        for _ in 0..u64::BITS {
            if end <= first {
                break;
            }
            let middle = first + (end - first) / 2;
            match dots.get(middle) {
                Some(dot) if *dot < y => first = middle + 1,
                _ => end = middle,
            }
        }
        dots.get(first.checked_sub(1)?).copied()
    }

    // Whether a dot stands above a height, and near it.
    fn is_near(&self, column: usize, y: u64) -> bool {
        match self.last_above(column, y) {
            Some(dot) => y <= dot.saturating_add(NEAR),
            None => false,
        }
    }
}

/// How a line goes: how far from its beginning to its end to either side and down, and how much of
/// both the half of a bow takes.
#[derive(Clone, Copy)]
struct Slope {
    across: u64,
    down: u64,
    // to the side, and down
    side: u64,
    fall: u64,
}

// How a line goes that is none of length 0.
fn slope_of(line: Line) -> Slope {
    let across = line.x1.abs_diff(line.x2);
    let down = line.y1.abs_diff(line.y2);
    // about its length, some hundredths more or less
    let most = across.max(down);
    let length = most.saturating_add(across.min(down) / 8 * 3).max(1);
    Slope {
        across,
        down,
        side: across.saturating_mul(REACH) / length,
        fall: down.saturating_mul(REACH) / length,
    }
}

// A number, so much more or less.
fn moved(from: u64, is_more: bool, by: u64) -> u64 {
    if is_more {
        from.saturating_add(by)
    } else {
        from.saturating_sub(by)
    }
}

// The bow of a line round the lifeline of a column.
fn put_bow(
    line: Line,
    slope: Slope,
    column: usize,
    dots: &Dots,
    way: &mut Draft,
) -> Result<(), NoMemory> {
    let (is_right, is_down) = (line.x1 <= line.x2, line.y1 <= line.y2);
    let x = x_of(column);
    let passed = slope.down.saturating_mul(x.abs_diff(line.x1)) / slope.across.max(1);
    let y = moved(line.y1, is_down, passed);
    let is_over = !dots.is_near(column, y);
    way.put_count("L", moved(x, !is_right, slope.side))?;
    way.put_count(" ", moved(y, !is_down, slope.fall))?;
    way.put(if is_over == is_right {
        "A1 1 0 0 1"
    } else {
        "A1 1 0 0 0"
    })?;
    way.put_count(" ", moved(x, is_right, slope.side))?;
    way.put_count(" ", moved(y, is_down, slope.fall))
}

/// Whether a line passes the lifeline of a module between its ends.
pub(crate) fn is_passing(line: Line) -> bool {
    let (left, right) = (line.x1.min(line.x2), line.x1.max(line.x2));
    count_left_of(left.saturating_add(1)) < count_left_of(right)
}

/// The bows of a line, from its beginning to its end.
pub(crate) fn put_bows(line: Line, dots: &Dots, way: &mut Draft) -> Result<(), NoMemory> {
    let (left, right) = (line.x1.min(line.x2), line.x1.max(line.x2));
    let first = count_left_of(left.saturating_add(1)) as usize;
    let end = count_left_of(right) as usize;
    let slope = slope_of(line);
    for k in first..end {
        let column = if line.x1 <= line.x2 {
            k
        } else {
            (end - 1).saturating_sub(k - first)
        };
        put_bow(line, slope, column, dots, way)?;
    }
    Ok(())
}
