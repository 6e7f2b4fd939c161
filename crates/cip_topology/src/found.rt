//! What a topology file says at a key.
ghost use Rattle.std.specs.Prelude.{◌≡◌};
ghost use Rattle.toml.specs.View.{view};
ghost use Rattle.cip_topology.specs.Faults.{found_of};

use cip_base::Excerpt;
use std::fmt;
use toml::Value;

/// The value that stands at a key, or how many tables do.
#[derive(Debug, Drop)]
pub enum Found {
    Integer(i64),
    /// The prefix of a text, and its length in bytes.
    Text(Excerpt, usize),
    Float,
    Boolean,
    Date,
    Array,
    Table,
    /// So many tables.
    Count(usize),
}

impl Found {
    pub(crate) fn of(value: &Value) -> Found
        ensures { result ≡ found_of (view value.now) }
    {
        match value {
            Value::String(text) => Found::Text(Excerpt::of(text.as_bytes()), text.len()),
            Value::Integer(number) => Found::Integer(*number),
            Value::Float(_) => Found::Float,
            Value::Boolean(_) => Found::Boolean,
            Value::Datetime(_) => Found::Date,
            Value::Array(_) => Found::Array,
            Value::Table(_) => Found::Table,
        }
    }
}

// A text in quotation marks, as far as its prefix goes, and its length.
#[derive(Clone, Copy)]
struct Quoted<'a> {
    front: &'a Excerpt,
    length: usize,
}

impl fmt::Display for Quoted<'_> {
    fn fmt<W: fmt::Write>(&self, f: &mut fmt::Formatter<W>) -> fmt::Result {
        let behind = if self.length > 40 {
            "..\", a text of "
        } else {
            "\", a text of "
        };
        write!(f, "\"{}{behind}{} bytes", self.front, self.length)
    }
}

impl Found {
    // The kind of what is told by its kind alone.
    fn kind(&self) -> &'static str {
        match self {
            Found::Float => "a float",
            Found::Boolean => "a boolean",
            Found::Date => "a date or time",
            Found::Array => "an array",
            _ => "a table",
        }
    }
}

impl fmt::Display for Found {
    fn fmt<W: fmt::Write>(&self, f: &mut fmt::Formatter<W>) -> fmt::Result {
        match self {
            Found::Integer(number) => write!(f, "{number}"),
            Found::Text(front, length) => {
                let length = *length;
                write!(f, "{}", Quoted { front, length })
            }
            Found::Count(count) => write!(f, "{count} tables"),
            other => f.write_str(other.kind()),
        }
    }
}
