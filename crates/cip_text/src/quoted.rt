//! JSON strings.
ghost use Rattle.std.specs.Prelude.{◌≡◌, ◌++◌, ◌∷◌, [], OnOk, IsTrue};
ghost use Rattle.std.specs.List.{list_all};
ghost use Rattle.cip_text.specs.Texts.{is_plain};

use crate::draft::Draft;
use cip_base::NoMemory;
use serde_json::Value;
use std::alloc::Global;

// Whether a text stands in a JSON string as it is.
fn are_plain(bytes: &[u8]) -> bool
    ensures { result ≡ list_all is_plain bytes.now }
{
    bytes
        .iter()
        .all(|byte| 32 <= *byte && *byte != 34 && *byte != 92)
}

impl Draft {
    // A text with an escape, as a JSON string.
    fn put_with_escapes(&mut self, part: &str) -> Result<(), NoMemory> {
        let alloc: Global = self.allocator();
        let quoted = Value::try_from_str(alloc, part)?.to_string(alloc)?;
        self.put(quoted.as_str())
    }

    /// Puts a text as a JSON string, with its quotation marks. NoMemory where an allocation is
    /// refused. The clause says what is put of a plain text, without quotation marks, backslashes
    /// and control characters; of another it is what serde_json writes.
    pub fn put_quoted(&mut self, part: &str) -> Result<(), NoMemory>
        ensures { OnOk result (IsTrue (list_all is_plain part.now)
            → self.new ≡ self.old ++ 34 ∷ part.now ++ 34 ∷ []) }
    {
        if !are_plain(part.as_bytes()) {
            return self.put_with_escapes(part);
        }
        self.put("\"")?;
        self.put(part)?;
        self.put("\"")
    }
}
