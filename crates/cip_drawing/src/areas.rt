//! Which parts of a chart are taken, so that no text hides another.
ghost use Rattle.std.specs.Prelude.{◌≡◌, ◌&&◌, ◌||◌, nat_le, nat_lt, slice_get};
ghost use Rattle.cip_drawing.specs.Bands.{meets, is_crossed, crosses, texts_cost, lines_cost};
ghost use Rattle.cip_drawing.specs.Bands.{band_cost, whole_cost, IsTold};
ghost use Rattle.cip_drawing.specs.Sides.{stands_left};

use crate::layout::{NUMBERS, ROW};
use crate::line::Line;
use cip_base::NoMemory;
use std::alloc::Global;

/// Where a text stands.
#[derive(Clone, Copy)]
pub(crate) struct Area {
    pub left: u64,
    pub top: u64,
    pub right: u64,
    pub bottom: u64,
}

/// By which of its points a text is placed.
#[derive(Clone, Copy, PartialEq, Eq)]
pub(crate) enum Anchor {
    Start,
    Middle,
    End,
}

impl Anchor {
    /// What stands behind the height of a text that is placed so, up to its words.
    pub(crate) fn closing(self) -> &'static str {
        match self {
            Anchor::Start => "\">",
            Anchor::Middle => "\" text-anchor=\"middle\">",
            Anchor::End => "\" text-anchor=\"end\">",
        }
    }
}

/// The place of a text: a point on its base line.
#[derive(Clone, Copy)]
pub(crate) struct Spot {
    pub x: u64,
    pub y: u64,
    pub anchor: Anchor,
}

// How far a text stands above and below its base line.
const ABOVE: u64 = 9;

const BELOW: u64 = 3;

/// About how wide so many characters are.
pub(crate) fn width_of(characters: usize) -> u64 {
    (characters as u64).saturating_mul(13) / 2
}

impl Spot {
    /// Where a text of this width stands.
    pub(crate) fn area(self, width: u64) -> Area {
        let left = match self.anchor {
            Anchor::Start => self.x,
            Anchor::Middle => self.x.saturating_sub(width / 2),
            Anchor::End => self.x.saturating_sub(width),
        };
        Area {
            left,
            top: self.y.saturating_sub(ABOVE),
            right: left.saturating_add(width),
            bottom: self.y.saturating_add(BELOW),
        }
    }
}

impl Area {
    // Whether two texts meet.
    fn meets(self, other: Area) -> bool
        ensures { result ≡ meets self other }
    {
        self.left <= other.right
            && other.left <= self.right
            && self.top <= other.bottom
            && other.top <= self.bottom
    }

    // How bad it is that a text stands on these, with what was found before.
    fn cost_of_texts(self, texts: &[Area], before: u64) -> u64
        ensures { result ≡ texts_cost self texts.now before }
    {
        let mut cost = before;
        for i in 0..texts.len() {
            if self.meets(texts[i]) {
                cost = cost.saturating_add(ON_TEXT);
            }
        }
        cost
    }

    // Whether a line goes through the text.
    fn is_crossed(self, line: Line) -> bool
        ensures { result ≡ is_crossed self line }
    {
        match line.within(self.top, self.bottom) {
            Some((left, right)) => self.left <= right && left <= self.right,
            None => false,
        }
    }
}

// How bad it is that a text stands on another, and on a line.
const ON_TEXT: u64 = 20;

const ON_LINE: u64 = 3;

/// The most bands of a line that are taken.
const LONGEST: u64 = 40;

/// A line in a band.
#[derive(Clone, Copy)]
struct Passing {
    /// How far the line goes to the left and to the right at most, where a text stands that begins
    /// or ends in the band.
    left: u64,
    right: u64,
    /// Its place among the lines.
    line: usize,
}

impl Passing {
    // Whether the line stands beside a text that begins or ends in the band.
    fn is_beside(self, area: Area) -> bool
        ensures { result ≡ (nat_lt self.right area.left || nat_lt area.right self.left) }
    {
        self.right < area.left || area.right < self.left
    }

    // Whether it goes no further to either side than such a text.
    fn is_between(self, area: Area) -> bool
        ensures { result ≡ (nat_le area.left self.left && nat_le self.right area.right) }
    {
        area.left <= self.left && self.right <= area.right
    }
}

/// A band of the height of a row, with what takes a part of it.
#[derive(Drop)]
struct Band {
    texts: Vec<Area>,
    lines: Vec<Passing>,
}

/// The things of a chart, in bands.
#[derive(Drop)]
pub(crate) struct Areas {
    lines: Vec<Line>,
    bands: Vec<Band>,
    /// The greatest end of a text to the right.
    pub right: u64,
}

impl Areas {
    /// Of a chart of this height.
    pub(crate) fn new(alloc: Global, height: u64) -> Result<Areas, NoMemory> {
        let mut bands = Vec::new(alloc);
        for _ in 0..(height / ROW).saturating_add(2) {
            bands.push(Band {
                texts: Vec::new(alloc),
                lines: Vec::new(alloc),
            })?;
        }
        Ok(Areas {
            lines: Vec::new(alloc),
            bands,
            right: 0,
        })
    }

    // A text takes the band at this height.
    fn put(&mut self, area: Area, band: u64) -> Result<(), NoMemory> {
        if let Some(things) = self.bands.get_mut(band as usize) {
            things.texts.push(area)?;
        }
        Ok(())
    }

    /// A text takes its area.
    pub(crate) fn put_text(&mut self, area: Area) -> Result<(), NoMemory> {
        self.right = self.right.max(area.right);
        let (first, last) = (area.top / ROW, area.bottom / ROW);
        self.put(area, first)?;
        if first != last {
            self.put(area, last)?;
        }
        Ok(())
    }

    // A line takes the band at this height.
    fn put_passing(&mut self, line: Line, place: usize, band: u64) -> Result<(), NoMemory> {
        let begin = band.saturating_mul(ROW);
        let top = begin.saturating_sub(ABOVE + BELOW);
        let bottom = begin.saturating_add(ROW + ABOVE + BELOW);
        if let Some((left, right)) = line.within(top, bottom) {
            if let Some(things) = self.bands.get_mut(band as usize) {
                things.lines.push(Passing {
                    left,
                    right,
                    line: place,
                })?;
            }
        }
        Ok(())
    }

    /// A line takes the bands that it goes through, a long one the first of them.
    pub(crate) fn put_line(&mut self, line: Line) -> Result<(), NoMemory> {
        let first = line.y1.min(line.y2) / ROW;
        let last = (line.y1.max(line.y2) / ROW).min(first.saturating_add(LONGEST));
        let place = self.lines.len();
        self.lines.push(line)?;
        for band in first..last.saturating_add(1) {
            self.put_passing(line, place, band)?;
        }
        Ok(())
    }

    // Whether a line goes through a text that begins or ends in the band.
    fn is_crossed(&self, area: Area, passing: Passing) -> bool
        ensures { result ≡ crosses area passing (slice_get self.now.lines.items passing.line) }
    {
        if passing.is_beside(area) {
            return false;
        }
        match self.lines.get(passing.line) {
            Some(line) if passing.is_between(area) => line.is_at(area.top, area.bottom),
            Some(line) => area.is_crossed(*line),
            None => false,
        }
    }

    // How bad it is that a text stands on these lines, with what was found before, as far as it is
    // below a limit.
    fn cost_of_lines(&self, area: Area, passings: &[Passing], before: u64, limit: u64) -> u64
        ensures { IsTold limit result
            (lines_cost self.now.lines.items area passings.now before) }
    {
        let mut cost = before;
        for i in 0..passings.len() {
            if limit <= cost {
                return cost;
            }
            if self.is_crossed(area, passings[i]) {
                cost = cost.saturating_add(ON_LINE);
            }
        }
        cost
    }

    // How bad it is that a text stands here, by the things of one band and what was found before,
    // as far as it is below a limit.
    fn cost_in(&self, area: Area, band: u64, before: u64, limit: u64) -> u64
        ensures { IsTold limit result
            (band_cost self.now.lines.items area (slice_get self.now.bands.items band) before) }
    {
        let Some(things) = self.bands.get(band as usize) else {
            return before;
        };
        let cost = area.cost_of_texts(things.texts.as_slice(), before);
        self.cost_of_lines(area, things.lines.as_slice(), cost, limit)
    }

    /// How bad it is that a text stands here, with what was found before: that alone where nothing
    /// is. Where it is not below the limit it may be told as less, but not as below the limit.
    pub(crate) fn cost(&self, area: Area, before: u64, limit: u64) -> u64
        ensures { IsTold limit result
            (whole_cost self.now.lines.items self.now.bands.items area before) }
    {
        let (first, last) = (area.top / ROW, area.bottom / ROW);
        let cost = self.cost_in(area, first, before, limit);
        if first == last {
            return cost;
        }
        self.cost_in(area, last, cost, limit)
    }

    /// Whether a text beside a lifeline stands at its left: where it comes to no number there, and
    /// that is not as bad as at the right.
    pub(crate) fn is_left(&self, right: Area, left: Area) -> bool
        ensures { result ≡ stands_left self.now.lines.items self.now.bands.items right left }
    {
        let cost = self.cost(right, 0, u64::MAX);
        0 < cost && NUMBERS < left.left && self.cost(left, 0, cost) < cost
    }
}
