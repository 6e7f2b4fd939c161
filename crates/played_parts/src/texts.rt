//! Answers as text.
use line_words::{Pairs, Then};
use std::alloc::Global;
use std::fmt;

/// A value as its text.
pub fn text<T: fmt::Display + Drop>(alloc: Global, value: T) -> Option<String> {
    format!(in alloc; "{value}").ok()
}

/// A fault or a reason as its name.
pub fn name<F: fmt::Debug + Drop>(alloc: Global, value: F) -> Option<String> {
    format!(in alloc; "{value:?}").ok()
}

/// A fault as its name and its text.
pub fn explained<F: fmt::Debug + fmt::Display + Drop>(alloc: Global, fault: F) -> Option<String> {
    format!(in alloc; "{fault:?}: {fault}").ok()
}

/// A value as its name.
#[derive(Clone, Copy)]
pub struct Named<F>(pub F);

impl<F: fmt::Debug> fmt::Display for Named<F> {
    fn fmt<W: fmt::Write>(&self, f: &mut fmt::Formatter<W>) -> fmt::Result {
        fmt::Debug::fmt(&self.0, f)
    }
}

/// A number as four hexadecimal digits or more.
#[derive(Clone, Copy)]
pub struct Digits(pub u32);

impl fmt::Display for Digits {
    fn fmt<W: fmt::Write>(&self, f: &mut fmt::Formatter<W>) -> fmt::Result {
        write!(f, "{:#06X}", self.0)
    }
}

/// A value that may be missing.
#[derive(Clone, Copy)]
pub struct Perhaps<T>(pub Option<T>);

impl<T: fmt::Display> fmt::Display for Perhaps<T> {
    fn fmt<W: fmt::Write>(&self, f: &mut fmt::Formatter<W>) -> fmt::Result {
        match &self.0 {
            Some(value) => fmt::Display::fmt(value, f),
            None => f.write_str("none"),
        }
    }
}

/// Bytes as pairs, and above 100 their count alone.
#[derive(Clone, Copy)]
pub struct PairsOrCount<'a>(pub &'a [u8]);

impl fmt::Display for PairsOrCount<'_> {
    fn fmt<W: fmt::Write>(&self, f: &mut fmt::Formatter<W>) -> fmt::Result {
        let count = self.0.len();
        if count > 100 {
            fmt::Display::fmt(&Then(count, "bytes"), f)
        } else {
            fmt::Display::fmt(&Pairs(self.0), f)
        }
    }
}
