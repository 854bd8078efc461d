//! Values that are built piece by piece, and that note where memory ran out: who builds one needs
//! no exit for each piece, and asks once, at its end.

ghost use Rattle.std.specs.Prelude.{◌≡◌, ◌++◌, ◌∷◌, [], IfOk, IsOkAnd, false, map};
ghost use Rattle.serde_json.specs.Data.{array, no_members, number, object, put, string, unsigned};
ghost use Rattle.serde_json.specs.View.{items_of, members_view, view};

use serde_json::{Map, Value};
use std::alloc::{AllocError, Global};

/// An object, and whether something of it is missing.
///
/// Members are best put from the last name to the first: each is then compared with one alone.
#[derive(Drop)]
pub(crate) struct ObjectBuilder {
    alloc: Global,
    members: Map<String, Value>,
    lacks: bool,
}

impl ObjectBuilder {
    /// No member yet.
    pub(crate) fn new(alloc: Global) -> ObjectBuilder
        ensures members { members_view result.members.entries ≡ no_members }
        ensures whole { result.lacks ≡ false }
    {
        ObjectBuilder {
            alloc,
            members: Map::new(alloc),
            lacks: false,
        }
    }

    /// Puts a member, if its value could be made.
    pub(crate) fn put(&mut self, name: &str, value: Result<Value, AllocError>)
        ensures { self.new.lacks ≡ false → (self.old.lacks ≡ false)
            × IsOkAnd value (λ value. members_view self.new.members.entries
            ≡ put name.now (view value) (members_view self.old.members.entries)) }
    {
        let done = match value {
            Ok(value) => serde_json::put(&mut self.members, self.alloc, name, value),
            Err(refused) => Err(refused),
        };
        if done.is_err() {
            self.lacks = true;
        }
    }

    /// Puts a member that is a text.
    pub(crate) fn put_text(&mut self, name: &str, text: &str)
        ensures { self.new.lacks ≡ false → (self.old.lacks ≡ false)
            × (members_view self.new.members.entries
            ≡ put name.now (string text.now) (members_view self.old.members.entries)) }
    {
        self.put(name, Value::try_from_str(self.alloc, text))
    }

    /// Puts a member that is a number.
    pub(crate) fn put_number(&mut self, name: &str, count: u64)
        ensures { self.new.lacks ≡ false → (self.old.lacks ≡ false)
            × (members_view self.new.members.entries
            ≡ put name.now (number (unsigned count)) (members_view self.old.members.entries)) }
    {
        self.put(name, Ok(Value::from(count)))
    }

    /// The object, if nothing of it is missing.
    ///
    /// # Errors
    ///
    /// When memory ran out where something was made or put.
    pub(crate) fn finish(self) -> Result<Value, AllocError>
        ensures { IfOk result (λ value. (self.lacks ≡ false)
            × (view value ≡ object (members_view self.members.entries))) }
    {
        if self.lacks {
            return Err(AllocError);
        }
        Ok(Value::Object(self.members))
    }
}

/// A list, and whether something of it is missing.
#[derive(Drop)]
pub(crate) struct ArrayBuilder {
    values: Vec<Value>,
    lacks: bool,
}

impl ArrayBuilder {
    /// No value yet.
    pub(crate) fn new(alloc: Global) -> ArrayBuilder
        ensures values { result.values.items ≡ [] }
        ensures whole { result.lacks ≡ false }
    {
        ArrayBuilder {
            values: Vec::new(alloc),
            lacks: false,
        }
    }

    /// Adds a value behind the others, if it could be made.
    pub(crate) fn push(&mut self, value: Result<Value, AllocError>)
        ensures { self.new.lacks ≡ false → (self.old.lacks ≡ false)
            × IsOkAnd value (λ value. map view self.new.values.items
            ≡ map view self.old.values.items ++ view value ∷ []) }
    {
        let done = match value {
            Ok(value) => serde_json::push(&mut self.values, value),
            Err(refused) => Err(refused),
        };
        if done.is_err() {
            self.lacks = true;
        }
    }

    /// The list, if nothing of it is missing.
    ///
    /// # Errors
    ///
    /// When memory ran out where something was made or added.
    pub(crate) fn finish(self) -> Result<Value, AllocError>
        ensures { IfOk result (λ value. (self.lacks ≡ false)
            × (view value ≡ array (items_of (map view self.values.items)))) }
    {
        if self.lacks {
            return Err(AllocError);
        }
        Ok(Value::Array(self.values))
    }
}
