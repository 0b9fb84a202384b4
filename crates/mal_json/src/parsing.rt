//! The value that a text is.

ghost use Rattle.serde_json.specs.View.{view};
ghost use Rattle.spec_json.specs.Shape.{json_in};
ghost use Rattle.mal_json.specs.ReadResult.{Parses};

use serde_json::Value;
use spec_json::JsonFault;
use std::alloc::Global;

/// The value that a text is. `NotJson` exactly where it is none.
#[tactic(auto, using(crate::proofs::Parsed::parsed))]
pub fn parse(alloc: Global, text: &[u8]) -> Result<Value, JsonFault>
    ensures { Parses view result (json_in text.now) }
{
    match Value::from_slice(alloc, text) {
        Ok(value) => Ok(value),
        Err(error) => {
            if error.is_memory() {
                Err(JsonFault::OutOfMemory)
            } else {
                Err(JsonFault::NotJson)
            }
        }
    }
}
