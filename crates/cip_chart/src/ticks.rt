//! Ticks of all modules, one behind the other, by the same milliseconds: they stand in one row.
ghost use Rattle.std.specs.Prelude.{◌≡◌};
ghost use Rattle.cip_chart.specs.Rounds.{next_of, rows_with};

use cip_drawing::Row;

/// The ticks of the modules from the first on, as far as they came one behind the other and by the
/// same milliseconds.
#[derive(Clone, Copy)]
pub(crate) struct Round {
    ms: u16,
    /// How many modules ticked.
    pub modules: usize,
    /// How many of their rows are shown.
    pub rows: usize,
}

impl Round {
    /// No module ticked.
    pub(crate) fn none() -> Round
        ensures { (result.modules ≡ 0) × (result.rows ≡ 0) }
    {
        Round {
            ms: 0,
            modules: 0,
            rows: 0,
        }
    }

    /// The module at a place ticks, in a row that is shown or in none.
    pub(crate) fn ticked(self, at: usize, ms: u16, is_shown: bool) -> Round
        ensures modules { result.modules ≡ next_of self at ms }
        ensures rows { result.rows ≡ rows_with self at ms is_shown }
    {
        let rows = if at == 0 {
            0
        } else if at == self.modules && ms == self.ms {
            self.rows
        } else {
            return Round::none();
        };
        Round {
            ms,
            modules: at.saturating_add(1),
            rows: if is_shown {
                rows.saturating_add(1)
            } else {
                rows
            },
        }
    }
}

/// Rows of the ticks of all modules.
#[derive(Clone, Copy)]
pub(crate) struct Together {
    pub first: usize,
    pub count: usize,
}

// Whether a row is shown and nothing folded stands between it and the next one.
fn is_plain(rows: &[Row], place: usize) -> bool {
    match rows.get(place) {
        Some(row) => !row.is_folded && row.fold.is_none(),
        None => false,
    }
}

// Whether a row is shown, and as many rows before it where a cycle that ends here is folded.
fn is_whole(rows: &[Row], place: usize, count: usize) -> bool {
    match rows.get(place) {
        Some(row) => match row.fold {
            Some(fold) => !row.is_folded && count <= fold.rows,
            None => !row.is_folded,
        },
        None => false,
    }
}

// Whether the rows can stand at one height.
fn can_join(rows: &[Row], ticks: Together) -> bool {
    let last = ticks.first.saturating_add(ticks.count).saturating_sub(1);
    for place in ticks.first..last {
        if !is_plain(rows, place) {
            return false;
        }
    }
    is_whole(rows, last, ticks.count)
}

// The rows stand at the height of the first.
fn join_rows(rows: &mut Vec<Row>, ticks: Together) {
    if let Some(row) = rows.get_mut(ticks.first) {
        row.joined = ticks.count.saturating_sub(1);
    }
    for place in ticks.first.saturating_add(1)..ticks.first.saturating_add(ticks.count) {
        if let Some(row) = rows.get_mut(place) {
            row.is_joined = true;
        }
    }
}

/// The rows of ticks of all modules stand at one height, where all of them are shown.
pub(crate) fn join(rows: &mut Vec<Row>, all: &[Together]) {
    for ticks in all {
        if can_join(rows.as_slice(), *ticks) {
            join_rows(rows, *ticks);
        }
    }
}
