//! The chart as SVG.
use crate::areas::{Areas, width_of};
use crate::arrows::{Shown, put_arrows, take_labels, take_lines};
use crate::layout::{Heights, LEFT, MARK, SPACING};
use crate::lives::{body_of, put_lives, take_names};
use crate::model::Chart;
use crate::rows::{Beside, put_marks, put_rows, take_rows};
use crate::style::{self, HEADS, STYLE};
use cip_base::NoMemory;
use cip_text::Draft;
use std::alloc::Global;

// How wide a chart is with so many lifelines and texts that end here.
fn width_with(chart: &Chart<'_>, right: u64) -> u64 {
    let count = chart.columns.iter().flatten().count() as u64;
    let lives = LEFT.saturating_add(SPACING.saturating_mul(count));
    let mut width = lives.max(right).saturating_add(20);
    for note in &chart.notes {
        width = width.max(width_of(note.len()).saturating_add(40));
    }
    width
}

// What is said below the chart.
fn put_notes(notes: &[String], end: u64, out: &mut Draft) -> Result<(), NoMemory> {
    let mut y = end.saturating_add(6);
    for note in notes {
        y = y.saturating_add(MARK);
        write!(out, "<text {} x=\"20\" y=\"{y}\">", style::PALE)?;
        out.put_escaped(note.as_str())?;
        out.put("</text>\n")?;
    }
    Ok(())
}

// What stands before the chart.
fn put_head(width: u64, height: u64, out: &mut Draft) -> Result<(), NoMemory> {
    write!(
        out,
        "<svg xmlns=\"http://www.w3.org/2000/svg\" viewBox=\"0 0 {width} {height}\" "
    )?;
    let text = style::TEXT;
    write!(
        out,
        "width=\"{width}\" height=\"{height}\" role=\"img\" {text}>\n"
    )?;
    write!(
        out,
        "<title>A sequence chart of a run of cipbridge</title><style>{STYLE}</style>\n"
    )?;
    out.put(HEADS)?;
    write!(
        out,
        "<rect class=\"paper\" fill=\"#fff\" width=\"{width}\" height=\"{height}\"/>\n"
    )?;
    Ok(())
}

// Where everything of a chart stands, and how wide and high it is.
#[derive(Drop)]
struct Places {
    heights: Heights,
    arrows: Vec<Shown>,
    beside: Beside,
    width: u64,
    height: u64,
}

// The places of a chart whose first row stands so high.
fn places_of(alloc: Global, chart: &Chart<'_>, body: u64) -> Result<Places, NoMemory> {
    let heights = Heights::of(alloc, chart.rows.as_slice(), body)?;
    let end = heights.end();
    let mut areas = Areas::new(alloc, end)?;
    take_names(chart, &heights, &mut areas)?;
    let mut arrows = take_lines(alloc, chart, &heights, &mut areas)?;
    let beside = take_rows(alloc, chart, &heights, &mut areas)?;
    take_labels(&mut arrows, &mut areas)?;
    let notes = MARK.saturating_mul(chart.notes.len() as u64);
    Ok(Places {
        heights,
        arrows,
        beside,
        width: width_with(chart, areas.right),
        height: end.saturating_add(20).saturating_add(notes),
    })
}

// The chart with everything at its place.
fn put_places(
    alloc: Global,
    chart: &Chart<'_>,
    places: &Places,
    body: u64,
    is_link: bool,
    out: &mut Draft,
) -> Result<(), NoMemory> {
    let heights = &places.heights;
    put_head(places.width, places.height, out)?;
    put_lives(chart, heights, body, out)?;
    put_rows(chart, heights, places.width, out)?;
    put_arrows(chart, heights, places.arrows.as_slice(), is_link, out)?;
    put_marks(alloc, chart, &places.beside, out)?;
    put_notes(chart.notes.as_slice(), heights.end(), out)?;
    out.put("</svg>\n")
}

/// The chart as SVG, its arrows as links to what their messages say where that stands on a page.
pub fn put_svg(
    alloc: Global,
    chart: &Chart<'_>,
    is_link: bool,
    out: &mut Draft,
) -> Result<(), NoMemory> {
    let body = body_of(chart.topology);
    let places = places_of(alloc, chart, body)?;
    put_places(alloc, chart, &places, body, is_link, out)
}
