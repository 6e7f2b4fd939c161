//! Text that stands in XML.
ghost use Rattle.std.specs.Prelude.{◌≡◌, ◌++◌, IsTrue, OnOk, MatchOption};
ghost use Rattle.cip_text.specs.Escapes.{is_marked, escape, escaped, IsFirstMarked};

use crate::draft::Draft;
use cip_base::NoMemory;

// Whether a character means something in XML.
fn is_marked(byte: u8) -> bool
    ensures { result ≡ is_marked byte }
{
    byte == b'&' || byte == b'<' || byte == b'>' || byte == b'"' || byte == b'\''
}

// What stands for a character that means something in XML.
fn escape(byte: u8) -> &'static str
    requires { IsTrue (is_marked byte) }
    ensures { result.now ≡ escape byte }
{
    match byte {
        b'&' => "&amp;",
        b'<' => "&lt;",
        b'>' => "&gt;",
        b'"' => "&quot;",
        _ => "&#39;",
    }
}

// The place of the first character that means something in XML.
fn first_marked(bytes: &[u8]) -> Option<usize>
    ensures { MatchOption result (escaped bytes.now ≡ bytes.now) (IsFirstMarked bytes.now) }
{
    'bytes: for at in 0..bytes.len() {
        if is_marked(bytes[at]) {
            return Some(at);
        }
    }
    None
}

impl Draft {
    /// Puts a text, with the characters that mean something in XML written by their names. What
    /// stands between two of them goes at once. NoMemory where an allocation is refused.
    pub fn put_escaped(&mut self, text: &str) -> Result<(), NoMemory>
        ensures { OnOk result (self.new ≡ self.old ++ escaped text.now) }
    {
        let mut rest = text;
        'parts: while let Some(at) = first_marked(rest.as_bytes()) {
            let marked = escape(rest.as_bytes()[at]);
            self.put(&rest[..at])?;
            self.put(marked)?;
            rest = &rest[at + 1..];
        }
        self.put(rest)
    }
}
