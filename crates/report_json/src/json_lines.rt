//! Lines of JSON that gather before they are written.

ghost use Rattle.std.specs.Prelude.{◌≡◌, ◌++◌, ◌∷◌, [], OnErr, OnOk, Some};
ghost use Rattle.json.specs.Json.{document};
ghost use Rattle.report_json.specs.Line.{json_line, json_text};

use crate::to_json::ToJson;
use json::Writer;
use std::alloc::{AllocError, Global};
use std::marker::Model;
use std::mem;

/// Lines of JSON that gather before they are written, each one value.
#[derive(Drop)]
pub struct JsonLines {
    alloc: Global,
    text: Vec<u8>,
}

impl Model for JsonLines {
    ghost use Rattle.std.specs.Prelude.{List, ℕ};

    ghost Value = { List ℕ };

    ghost view = { λ lines. lines.text.items };
}

impl JsonLines {
    /// No lines.
    pub fn new(alloc: Global) -> JsonLines
        ensures { result ≡ [] }
    {
        JsonLines {
            alloc,
            text: Vec::new(alloc),
        }
    }

    /// The bytes of the lines.
    pub fn bytes(&self) -> &[u8]
        ensures { result.now ≡ self.now }
    {
        self.text.as_slice()
    }

    /// The lines, as nothing but their bytes.
    pub fn into_bytes(self) -> Vec<u8>
        ensures { result.items ≡ self }
    {
        let JsonLines { alloc: _, text } = self;
        text
    }

    /// Forgets the lines.
    pub fn clear(&mut self)
        ensures { self.new ≡ [] }
    {
        self.text.truncate(0);
    }

    /// Adds the line of a value.
    ///
    /// # Errors
    ///
    /// When memory runs out: then nothing is added.
    pub fn add<T: ToJson>(&mut self, value: &T) -> Result<(), AllocError>
        ensures added { OnOk result (self.new ≡ self.old ++ json_line (T.json value.now)) }
        ensures unchanged { OnErr result (self.new ≡ self.old) }
        ensures reads_back { OnOk result
            (document (json_text (T.json value.now)) ≡ Some (T.json value.now)) }
    {
        let length = self.text.len();
        let text = mem::replace(&mut self.text, Vec::new(self.alloc));
        let mut out = Writer::new(text);
        let written = value.write(&mut out);
        self.text = out.into_inner();
        let added = match written {
            Ok(()) => self.end_line(),
            Err(refused) => Err(refused),
        };
        if added.is_err() {
            self.text.truncate(length);
        }
        added
    }

    /// Ends a line.
    fn end_line(&mut self) -> Result<(), AllocError>
        ensures added { OnOk result (self.new ≡ self.old ++ 10 ∷ []) }
        ensures unchanged { OnErr result (self.new ≡ self.old) }
    {
        self.text.push(b'\n')?;
        Ok(())
    }
}
