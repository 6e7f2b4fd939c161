//! The rows of a chart: an entry each, with what the module was given and what came of it.
use crate::areas::{Anchor, Areas, Spot, width_of};
use crate::layout::{Heights, MARK, below_dot, x_of};
use crate::line::y_of;
use crate::model::{Chart, Fold, Mark, Row};
use crate::style;
use cip_base::NoMemory;
use cip_book::command_word;
use cip_read::Given;
use cip_text::Draft;
use std::alloc::Global;

// What a module was given, beside its lifeline; nothing for a frame, which has its arrow.
fn put_words(text: &mut Draft, given: Given) -> Result<(), NoMemory> {
    match given {
        Given::Command(word, number) => {
            text.put(command_word(word))?;
            text.put_count(" ", u64::from(number))
        }
        Given::Tick(ms) => {
            text.put_count("tick ", u64::from(ms))?;
            text.put(" ms")
        }
        Given::Frame(_) => Ok(()),
    }
}

// How far from a lifeline a text stands beside it.
const GAP: u64 = 6;

// The place of a text at the right of a lifeline, so much above or below a dot.
fn right_of(column: usize, y: u64) -> Spot {
    Spot {
        x: x_of(column).saturating_add(GAP),
        y,
        anchor: Anchor::Start,
    }
}

// The place at the left of it.
fn left_of(column: usize, y: u64) -> Spot {
    Spot {
        x: x_of(column).saturating_sub(GAP),
        y,
        anchor: Anchor::End,
    }
}

/// Where the texts beside the lifelines stand; None where there is none.
#[derive(Drop)]
pub(crate) struct Beside {
    /// Of each row what its module was given.
    given: Vec<Option<Spot>>,
    marks: Vec<Option<Spot>>,
}

// A text of this width takes its place beside a lifeline: at the right, unless the left is better.
fn take_beside(column: usize, y: u64, width: u64, areas: &mut Areas) -> Result<Spot, NoMemory> {
    let (right, left) = (right_of(column, y), left_of(column, y));
    let spot = if areas.is_left(right.area(width), left.area(width)) {
        left
    } else {
        right
    };
    areas.put_text(spot.area(width))?;
    Ok(spot)
}

// What the module of a row was given, as this text, takes its place; None where there is nothing.
fn take_given(
    row: &Row,
    y: u64,
    text: &mut Draft,
    areas: &mut Areas,
) -> Result<Option<Spot>, NoMemory> {
    let (false, Some(column), Some(given)) = (row.is_folded, row.column, row.given) else {
        return Ok(None);
    };
    text.clear();
    put_words(text, given)?;
    if text.is_empty() {
        return Ok(None);
    }
    let width = width_of(text.len().saturating_add(1));
    let spot = take_beside(column, y.saturating_sub(6), width, areas)?;
    Ok(Some(spot))
}

// How far the bars of a reset stand out behind where another mark begins.
const BARS: u64 = 6;

// A reset takes its place, which is at the right, behind its bars.
fn take_reset(column: usize, y: u64, width: u64, areas: &mut Areas) -> Result<Spot, NoMemory> {
    let spot = right_of(column, y);
    let x = spot.x.saturating_add(BARS);
    let spot = Spot { x, ..spot };
    areas.put_text(spot.area(width))?;
    Ok(spot)
}

// The column and the height of a mark, so much below the first of its row; None where its row is
// not shown.
fn mark_point(
    chart: &Chart<'_>,
    heights: &Heights,
    mark: &Mark,
    below: u64,
) -> Option<(usize, u64)> {
    let y = y_of(chart, heights, Some(mark.row))?;
    let column = chart.rows.get(mark.row)?.column?;
    Some((column, y.saturating_add(12).saturating_add(below)))
}

// A mark takes its place, so much below the first of its row; None where its row is not shown.
fn take_mark(
    chart: &Chart<'_>,
    heights: &Heights,
    mark: &Mark,
    below: u64,
    areas: &mut Areas,
) -> Result<Option<Spot>, NoMemory> {
    let Some((column, y)) = mark_point(chart, heights, mark, below) else {
        return Ok(None);
    };
    let width = width_of(mark.text.len());
    let spot = if mark.is_reset {
        take_reset(column, y, width, areas)?
    } else {
        take_beside(column, y, width, areas)?
    };
    Ok(Some(spot))
}

// How far below the first mark of its row a mark stands that comes behind this one.
fn next_below(last: usize, below: u64, mark: &Mark) -> u64 {
    if mark.row == last {
        below.saturating_add(MARK)
    } else {
        0
    }
}

/// The texts at the lifelines take their places, one by one, behind the lines of arrows.
pub(crate) fn take_rows(
    alloc: Global,
    chart: &Chart<'_>,
    heights: &Heights,
    areas: &mut Areas,
) -> Result<Beside, NoMemory> {
    let mut beside = Beside {
        given: Vec::new(alloc),
        marks: Vec::new(alloc),
    };
    let mut text = Draft::new(alloc);
    for (row, y) in chart.rows.iter().zip(heights.rows.iter()) {
        beside.given.push(take_given(row, *y, &mut text, areas)?)?;
    }
    let mut last = usize::MAX;
    let mut below: u64 = 0;
    for mark in &chart.marks {
        below = next_below(last, below, mark);
        last = mark.row;
        let spot = take_mark(chart, heights, mark, below, areas)?;
        beside.marks.push(spot)?;
    }
    Ok(beside)
}

// That the rows above stand there so many times more.
fn put_fold(row: &Row, fold: Fold, y: u64, width: u64, out: &mut Draft) -> Result<(), NoMemory> {
    let top = y.saturating_add(below_dot(row)).saturating_add(8);
    let text = top.saturating_add(13);
    let across = width.saturating_sub(40);
    out.put("<rect ")?;
    out.put(style::FOLD)?;
    out.put_count(" x=\"20\" y=\"", top)?;
    out.put_count("\" width=\"", across)?;
    out.put("\" height=\"18\" rx=\"4\"/><text ")?;
    out.put(style::PALE)?;
    out.put_count(" font-style=\"italic\" x=\"60\" y=\"", text)?;
    out.put(if fold.has_ticks {
        "\">the entries above come "
    } else {
        "\">the data above moves "
    })?;
    out.put_number(fold.times as u64)?;
    out.put(" times more</text>\n")
}

// A number of an entry, with these words in front.
fn put_entry(entry: usize, y: u64, words: &str, out: &mut Draft) -> Result<(), NoMemory> {
    out.put_count("<text x=\"40\" y=\"", y)?;
    out.put("\">")?;
    out.put_count(words, entry as u64)?;
    out.put("</text>\n")
}

// A time, with these words in front.
fn put_time(time: u64, y: u64, words: &str, out: &mut Draft) -> Result<(), NoMemory> {
    out.put_count("<text x=\"100\" y=\"", y)?;
    out.put("\">")?;
    out.put_count(words, time)?;
    out.put(" ms</text>\n")
}

// The least and the greatest time of rows, as far as they have one.
fn times_of(rows: &[Row]) -> (u64, u64) {
    let (mut least, mut greatest) = (u64::MAX, 0);
    for row in rows {
        if let Some(time) = row.time {
            least = least.min(time);
            greatest = greatest.max(time);
        }
    }
    (least, greatest)
}

// The numbers of rows at one height, and their time; where it is not the same of all, from the
// least to the greatest.
fn put_joined(rows: &[Row], y: u64, out: &mut Draft) -> Result<(), NoMemory> {
    let (Some(first), Some(last)) = (rows.first(), rows.last()) else {
        return Ok(());
    };
    let (base, below) = (y.saturating_add(4), y.saturating_add(4 + MARK));
    let (least, greatest) = times_of(rows);
    put_entry(first.entry, base, "", out)?;
    put_entry(last.entry, below, "to ", out)?;
    put_time(least, base, "", out)?;
    if least < greatest {
        put_time(greatest, below, "to ", out)?;
    }
    Ok(())
}

// The number of a row, and its time, with those of the rows that stand at its height.
fn put_number(rows: &[Row], row: &Row, y: u64, out: &mut Draft) -> Result<(), NoMemory> {
    if 0 < row.joined {
        let joined = rows.get(..row.joined.saturating_add(1)).unwrap_or(rows);
        return put_joined(joined, y, out);
    }
    let base = y.saturating_add(4);
    put_entry(row.entry, base, "", out)?;
    match row.time {
        Some(time) => put_time(time, base, "", out),
        None => Ok(()),
    }
}

/// The numbers, the folds and the dots of the rows.
pub(crate) fn put_rows(
    chart: &Chart<'_>,
    heights: &Heights,
    width: u64,
    out: &mut Draft,
) -> Result<(), NoMemory> {
    write!(out, "<g {} text-anchor=\"end\">\n", style::PALE)?;
    for (place, (row, y)) in chart.rows.iter().zip(heights.rows.iter()).enumerate() {
        if !row.is_folded && !row.is_joined {
            let rows = chart.rows.get(place..).unwrap_or(&[]);
            put_number(rows, row, *y, out)?;
        }
    }
    out.put("</g>\n")?;
    for (row, y) in chart.rows.iter().zip(heights.rows.iter()) {
        if let (false, Some(fold)) = (row.is_folded, row.fold) {
            put_fold(row, fold, *y, width, out)?;
        }
    }
    for (row, y) in chart.rows.iter().zip(heights.rows.iter()) {
        if let Some(column) = row.column {
            if !row.is_folded {
                out.put_count("<circle cx=\"", x_of(column))?;
                out.put_count("\" cy=\"", *y)?;
                out.put("\" r=\"2.5\"/>\n")?;
            }
        }
    }
    Ok(())
}

// A text at its place, with these attributes.
fn put_text(spot: Spot, words: &str, text: &str, out: &mut Draft) -> Result<(), NoMemory> {
    out.put("<text")?;
    out.put(words)?;
    out.put_count(" x=\"", spot.x)?;
    out.put_count("\" y=\"", spot.y)?;
    out.put(spot.anchor.closing())?;
    out.put_escaped(text)?;
    out.put("</text>\n")
}

// The bars of a reset, across the lifeline, left of its word.
fn put_bars(spot: Spot, out: &mut Draft) -> Result<(), NoMemory> {
    let left = spot.x.saturating_sub(BARS + 13);
    let right = spot.x.saturating_sub(BARS - 1);
    out.put("<path ")?;
    out.put(style::CROSS)?;
    out.put_count(" d=\"M", left)?;
    out.put_count(" ", spot.y.saturating_sub(6))?;
    out.put_count("H", right)?;
    out.put_count("M", left)?;
    out.put_count(" ", spot.y.saturating_sub(2))?;
    out.put_count("H", right)?;
    out.put("\"/>\n")
}

// What the modules were given.
fn put_given(
    alloc: Global,
    chart: &Chart<'_>,
    beside: &Beside,
    out: &mut Draft,
) -> Result<(), NoMemory> {
    let mut text = Draft::new(alloc);
    for (row, spot) in chart.rows.iter().zip(beside.given.iter()) {
        if let (Some(spot), Some(given)) = (*spot, row.given) {
            text.clear();
            put_words(&mut text, given)?;
            let words = match given {
                Given::Command(..) => " font-weight=\"700\"",
                _ => "",
            };
            put_text(spot, words, text.as_str(), out)?;
        }
    }
    Ok(())
}

/// The texts at the lifelines: what the modules were given, and the marks, one below the other.
pub(crate) fn put_marks(
    alloc: Global,
    chart: &Chart<'_>,
    beside: &Beside,
    out: &mut Draft,
) -> Result<(), NoMemory> {
    out.put("<g class=\"halo\">\n")?;
    put_given(alloc, chart, beside, out)?;
    for (mark, spot) in chart.marks.iter().zip(beside.marks.iter()) {
        if let Some(spot) = *spot {
            let words = if mark.is_bad { style::BAD } else { "" };
            put_text(spot, words, mark.text.as_str(), out)?;
            if mark.is_reset {
                put_bars(spot, out)?;
            }
        }
    }
    out.put("</g>\n")
}
