//! The arrows of a chart, with their labels.
use crate::areas::{Anchor, Areas, Spot, width_of};
use crate::hops::{Dots, is_passing, put_bows};
use crate::labels::spot_of;
use crate::layout::Heights;
use crate::line::{Line, line_of};
use crate::model::{Arrow, Chart, Fate};
use crate::style;
use cip_base::NoMemory;
use cip_book::{Kind, Label};
use cip_text::Draft;
use std::alloc::Global;

/// An arrow that is shown.
#[derive(Drop)]
pub(crate) struct Shown {
    /// Its place among the arrows.
    place: usize,
    line: Line,
    is_whole: bool,
    label: String,
    spot: Spot,
}

// What stands at an arrow beside its label.
fn fate_word(fate: Fate) -> &'static str {
    match fate {
        Fate::Waits => " (waits)",
        Fate::Lost(_) => " (lost)",
        Fate::Nobody => " (no module)",
        Fate::Arrived(_) => "",
    }
}

// The arrow at a place, if it is shown. Its label is written into a room, and then copied.
fn shown_of(
    room: &mut Draft,
    chart: &Chart<'_>,
    heights: &Heights,
    place: usize,
    arrow: &Arrow,
) -> Result<Option<Shown>, NoMemory> {
    let Some((line, is_whole)) = line_of(chart, heights, arrow) else {
        return Ok(None);
    };
    room.clear();
    write!(room, "{}", arrow.label)?;
    room.put(fate_word(arrow.fate))?;
    let label = room.copied()?;
    let spot = Spot {
        x: line.x2,
        y: line.y2,
        anchor: Anchor::Start,
    };
    Ok(Some(Shown {
        place,
        line,
        is_whole,
        label,
        spot,
    }))
}

/// The arrows that are shown: their lines take their places.
pub(crate) fn take_lines(
    alloc: Global,
    chart: &Chart<'_>,
    heights: &Heights,
    areas: &mut Areas,
) -> Result<Vec<Shown>, NoMemory> {
    let mut arrows = Vec::new(alloc);
    let mut room = Draft::new(alloc);
    for (place, arrow) in chart.arrows.iter().enumerate() {
        if let Some(arrow) = shown_of(&mut room, chart, heights, place, arrow)? {
            areas.put_line(arrow.line)?;
            arrows.push(arrow)?;
        }
    }
    Ok(arrows)
}

/// The labels of the arrows take their places, one by one, each where nothing else stands.
pub(crate) fn take_labels(arrows: &mut Vec<Shown>, areas: &mut Areas) -> Result<(), NoMemory> {
    for arrow in arrows.iter_mut() {
        let characters = arrow.label.len();
        arrow.spot = spot_of(areas, arrow.line, arrow.is_whole, characters);
        areas.put_text(arrow.spot.area(width_of(characters)))?;
    }
    Ok(())
}

// A point, behind what stands before it.
fn put_point(before: &str, x: u64, y: u64, out: &mut Draft) -> Result<(), NoMemory> {
    out.put_count(before, x)?;
    out.put_count(" ", y)
}

// The way of a line: straight, or a loop where a module sends to itself; with dots it passes other
// lifelines in bows.
fn put_way(line: Line, dots: Option<&Dots>, way: &mut Draft) -> Result<(), NoMemory> {
    let Line { x1, y1, x2, y2 } = line;
    put_point(" d=\"M", x1, y1, way)?;
    if let Some(dots) = dots {
        put_bows(line, dots, way)?;
    }
    if line.is_loop() {
        let far = x1.saturating_add(70);
        put_point("C", far, y1, way)?;
        put_point(" ", far, y2, way)?;
        put_point(" ", x2, y2, way)?;
    } else {
        put_point("L", x2, y2, way)?;
    }
    way.put("\"/>")
}

// The path of a line with these attributes.
fn put_path(words: &str, way: &str, out: &mut Draft) -> Result<(), NoMemory> {
    out.put("<path ")?;
    out.put(words)?;
    out.put(way)
}

// A cross where a frame was lost.
fn put_cross(x: u64, y: u64, out: &mut Draft) -> Result<(), NoMemory> {
    let (left, right) = (x.saturating_sub(5), x.saturating_add(5));
    let (top, bottom) = (y.saturating_sub(5), y.saturating_add(5));
    out.put("<path ")?;
    out.put(style::CROSS)?;
    put_point(" d=\"M", left, top, out)?;
    put_point("L", right, bottom, out)?;
    put_point("M", left, bottom, out)?;
    put_point("L", right, top, out)?;
    out.put("\"/>")
}

// How a frame's line looks, and its head.
fn style_of(label: &Label) -> (&'static str, &'static str) {
    match label.kind {
        Kind::Request => (
            style::REQUEST,
            "class=\"line\" marker-end=\"url(#request)\"",
        ),
        Kind::Reply if label.is_failure() || label.is_unreadable() => {
            (
                style::FAILURE,
                "class=\"line\" marker-end=\"url(#failure)\"",
            )
        }
        Kind::Reply => (style::REPLY, "class=\"line\" marker-end=\"url(#reply)\""),
        Kind::Data => (style::DATA, "class=\"line\" marker-end=\"url(#data)\""),
    }
}

// What one points at, which is wider than what one sees.
const HIT: &str = "class=\"hit\" stroke=\"none\" stroke-width=\"9\" pointer-events=\"stroke\"";

// The line of a frame with its head, or with a cross, and the straight way that one points at.
fn put_line(
    arrow: &Arrow,
    line: Line,
    straight: &str,
    way: &str,
    out: &mut Draft,
) -> Result<(), NoMemory> {
    let (words, head) = style_of(&arrow.label);
    out.put("<g ")?;
    out.put(words)?;
    out.put(">")?;
    put_path(HIT, straight, out)?;
    match arrow.fate {
        Fate::Lost(_) | Fate::Nobody => {
            put_path("class=\"line\"", way, out)?;
            put_cross(line.x2, line.y2, out)?;
        }
        _ => put_path(head, way, out)?,
    }
    out.put("</g>")
}

// A label at its place.
fn put_label(arrow: &Shown, out: &mut Draft) -> Result<(), NoMemory> {
    let Spot { x, y, anchor } = arrow.spot;
    out.put_count("<text class=\"halo\" x=\"", x)?;
    out.put_count("\" y=\"", y)?;
    out.put(anchor.closing())?;
    out.put_escaped(arrow.label.as_str())?;
    out.put("</text>")
}

// Where an arrow begins, up to what its message says.
fn put_title(arrow: &Arrow, is_link: bool, out: &mut Draft) -> Result<(), NoMemory> {
    let (entry, output) = (arrow.name.entry as u64, arrow.name.output as u64);
    if is_link {
        out.put_count("<a href=\"#f", entry)?;
        out.put_count("-", output)?;
        out.put("\"><title>")?;
    } else {
        out.put("<g><title>")?;
    }
    out.put_number(entry)?;
    out.put_count(".", output)?;
    out.put(" ")
}

/// Texts for the ways of a line: straight, and in bows.
#[derive(Drop)]
struct Ways {
    straight: Draft,
    bowed: Draft,
}

// The line of a frame, in bows where it passes other lifelines.
fn put_ways(
    arrow: &Arrow,
    line: Line,
    dots: &Dots,
    ways: &mut Ways,
    out: &mut Draft,
) -> Result<(), NoMemory> {
    ways.straight.clear();
    put_way(line, None, &mut ways.straight)?;
    let straight = ways.straight.as_str();
    if !is_passing(line) {
        return put_line(arrow, line, straight, straight, out);
    }
    ways.bowed.clear();
    put_way(line, Some(dots), &mut ways.bowed)?;
    put_line(arrow, line, straight, ways.bowed.as_str(), out)
}

// An arrow with its label and what its message says.
fn put_arrow(
    arrow: &Arrow,
    shown: &Shown,
    is_link: bool,
    dots: &Dots,
    ways: &mut Ways,
    out: &mut Draft,
) -> Result<(), NoMemory> {
    put_title(arrow, is_link, out)?;
    out.put_escaped(arrow.says.as_str())?;
    out.put("</title>")?;
    put_ways(arrow, shown.line, dots, ways, out)?;
    put_label(shown, out)?;
    out.put(if is_link { "</a>\n" } else { "</g>\n" })
}

/// The arrows, as links to what their messages say where that stands on a page.
pub(crate) fn put_arrows(
    chart: &Chart<'_>,
    heights: &Heights,
    arrows: &[Shown],
    is_link: bool,
    out: &mut Draft,
) -> Result<(), NoMemory> {
    let alloc = out.allocator();
    let dots = Dots::of(alloc, chart, heights)?;
    let mut ways = Ways {
        straight: Draft::new(alloc),
        bowed: Draft::new(alloc),
    };
    for shown in arrows {
        if let Some(arrow) = chart.arrows.get(shown.place) {
            put_arrow(arrow, shown, is_link, &dots, &mut ways, out)?;
        }
    }
    Ok(())
}
