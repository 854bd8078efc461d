//! What has a value in JSON.

ghost use Rattle.std.specs.Prelude.{◌≡◌, ◌++◌, ◌≤◌, OnOk};
ghost use Rattle.json.specs.Json.{Json, max_depth};
ghost use Rattle.json.specs.Tree.{depth, json_tokens};

use json::Writer;
use std::alloc::AllocError;

/// What has a value in JSON.
pub trait ToJson {
    // The value.
    ghost json: { Self → Json };

    /// Writes the value.
    ///
    /// # Errors
    ///
    /// When memory runs out.
    fn write(&self, out: &mut Writer) -> Result<(), AllocError>
        ensures before { out.new.before ≡ out.old.before }
        ensures tokens { OnOk result
            (out.new.tokens ≡ out.old.tokens ++ json_tokens (json self.now)) };

    ghost nests: { (value : Self) → depth (json value) ≤ max_depth };
}
