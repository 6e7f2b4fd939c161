//! The cases of files: rows that are asked in turn of one part.
//!
//! A comment stands at the head of a file, and then each case, behind an empty line and a heading
//! `== PART: NAME` (`part.rt` has the parts). Its rows are a question in words, ` = ` and the
//! answer as text; `_` in an answer means nothing. Spaces before a row, empty rows and rows that
//! begin with `#` mean nothing. A line that ends in `\` goes on in the next one, behind four
//! spaces.
use crate::part::Part;
use line_words::Words;
use std::fs;

/// What came of a question.
#[derive(Drop)]
struct Given {
    answer: String,
    /// ` no memory` or ` back`, and whether all is as before; else empty.
    note: &'static str,
}

// Asks a question. A call that is owed to have changed nothing is told in the note.
fn asked(rt: &HostRuntime, part: &mut Part, question: &str, is_marked: bool) -> Option<Given> {
    let alloc = rt.alloc();
    let before = part.state(alloc)?;
    let marks = if is_marked { Some(rt) } else { None };
    let mut words = Words::of(alloc, question, marks);
    let answer = match words.word() {
        Some(name) => part.answer(name, &mut words),
        None => None,
    };
    let after = part.state(alloc)?;
    let is_same = words.same != Some(false) && after.as_str() == before.as_str();
    let is_bare = words.same.is_none() && before.is_empty();
    let note = if words.is_refused {
        if is_bare {
            " no memory"
        } else if is_same {
            " no memory, same"
        } else {
            " no memory, differs"
        }
    } else if words.same.is_some() {
        if is_same {
            " back, same"
        } else {
            " back, differs"
        }
    } else {
        ""
    };
    let answer = if words.is_refused {
        String::from_str(alloc, "no memory").ok()?
    } else if words.same.is_some() && !is_same {
        String::from_str(alloc, "differs").ok()?
    } else {
        match answer {
            Some(answer) => answer,
            None => String::from_str(alloc, "this can't be asked").ok()?,
        }
    };
    Some(Given { answer, note })
}

// Asks a question between marks, and once more where it was refused memory, and writes the line.
fn mark(rt: &HostRuntime, part: &mut Part, question: &str) -> Option<()> {
    let given = asked(rt, part, question, true)?;
    let note = given.note;
    let answer = if note.starts_with(" no memory") {
        asked(rt, part, question, false)?.answer
    } else {
        given.answer
    };
    println!(rt; "{note} = {answer}").ok()
}

// Plays a row. Where another answer came than it tells: the question and both.
fn play_row(rt: &HostRuntime, part: &mut Part, row: &str) -> Option<Option<String>> {
    let alloc = rt.alloc();
    let Some((question, told)) = row.split_once(" = ") else {
        let given = asked(rt, part, row, false)?;
        println!(rt; "{}", given.answer).ok()?;
        return Some(None);
    };
    let told = told.replace(alloc, "_", "").ok()?;
    let given = asked(rt, part, question, false)?.answer;
    if given.as_str() == told.as_str() {
        return Some(None);
    }
    let differs = format!(in alloc; "{question} = {given}, and not {told}").ok()?;
    Some(Some(differs))
}

// Plays the rows below a heading. Where one differs: what is told of it.
fn play_rows(
    rt: &HostRuntime,
    part: &mut Part,
    rows: &str,
    is_marked: bool,
) -> Option<Option<String>> {
    for row in rows.lines() {
        let row = row.trim();
        if row.is_empty() || row.starts_with('#') {
            continue;
        }
        if is_marked {
            let question = match row.split_once(" = ") {
                Some((question, _)) => question,
                None => row,
            };
            mark(rt, part, question)?;
        } else {
            let differs = play_row(rt, part, row)?;
            if differs.is_some() {
                return Some(differs);
            }
        }
    }
    Some(None)
}

// Plays the rows of a part. Where one differs: what is told of it.
fn play_part(rt: &HostRuntime, kind: &str, rows: &str, is_marked: bool) -> Option<Option<String>> {
    let alloc = rt.alloc();
    match Part::of(&mut Words::of(alloc, kind, None)) {
        Some(mut part) => play_rows(rt, &mut part, rows, is_marked),
        None => Some(Some(format!(in alloc; "there is no part {kind}").ok()?)),
    }
}

// Plays a case, and writes its line. Whether it is as it tells.
fn play_case(rt: &HostRuntime, group: &str, case: &str, is_marked: bool) -> Option<bool> {
    let (heading, rows) = case.split_once('\n')?;
    let (kind, name) = heading.split_once(": ")?;
    match play_part(rt, kind, rows, is_marked)? {
        Some(differs) => {
            println!(rt; "{group}: {name}: {differs}").ok()?;
            Some(false)
        }
        None => {
            if !is_marked {
                println!(rt; "{group}: {name}: ok").ok()?;
            }
            Some(true)
        }
    }
}

/// Plays each case of a file. Whether all are as they tell. None where memory or the output is
/// refused, or a heading cannot be read.
pub fn play(rt: &HostRuntime, path: &str, is_marked: bool) -> Option<bool> {
    let Ok(text) = fs::read_to_string(rt, path) else {
        println!(rt; "{path}: this file cannot be read").ok()?;
        return Some(false);
    };
    let name = match path.rsplit_once('/') {
        Some((_, name)) => name,
        None => path,
    };
    // without its folders and `.txt`
    let group = name.strip_suffix(".txt").unwrap_or(name);
    let text = text.as_str().replace(rt.alloc(), "\\\n    ", "").ok()?;
    let mut cases = text.as_str().split("\n== ");
    let _comment = cases.next();
    let mut is_right = true;
    for case in cases {
        is_right = play_case(rt, group, case, is_marked)? && is_right;
    }
    Some(is_right)
}
