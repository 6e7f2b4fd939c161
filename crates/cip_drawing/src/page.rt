//! The chart as a page: beside it what the message of an arrow says.
use crate::draw::put_svg;
use crate::model::{Arrow, Chart};
use crate::style::{PAGE_STYLE, SCRIPT};
use cip_base::NoMemory;
use cip_text::Draft;
use std::alloc::Global;

// What the message of an arrow says.
fn put_message(arrow: &Arrow, out: &mut Draft) -> Result<(), NoMemory> {
    let (entry, output) = (arrow.name.entry as u64, arrow.name.output as u64);
    out.put_count("<section id=\"f", entry)?;
    out.put_count("-", output)?;
    out.put("\"><h2>")?;
    out.put_number(entry)?;
    out.put_count(".", output)?;
    write!(out, " {}</h2><p>", arrow.label)?;
    out.put_escaped(arrow.says.as_str())?;
    out.put("</p></section>\n")
}

/// One page without anything from outside: the chart, and beside it what the message says of the
/// arrow that one points at, or reaches by the keyboard.
pub fn put_page(alloc: Global, chart: &Chart<'_>, out: &mut Draft) -> Result<(), NoMemory> {
    out.put("<!DOCTYPE html>\n<html lang=\"en\"><head><meta charset=\"utf-8\">")?;
    out.put("<title>A run of cipbridge</title>")?;
    write!(out, "<style>{PAGE_STYLE}</style></head><body><main>\n")?;
    put_svg(alloc, chart, true, out)?;
    out.put("</main><aside><h1>Messages</h1>")?;
    out.put("<p>Point at an arrow, or go to one by the Tab key and press Enter.</p>\n")?;
    for arrow in &chart.arrows {
        put_message(arrow, out)?;
    }
    write!(out, "</aside><script>{SCRIPT}</script></body></html>\n")
}
