//! Values of JSON from bytes and numbers.

ghost use Rattle.std.specs.Prelude.{◌≡◌, IfOk, option_map};
ghost use Rattle.serde_json.specs.Data.{string};
ghost use Rattle.serde_json.specs.View.{view};
ghost use Rattle.survey_json.specs.Values.{number_or_null, text_data, text_or_null};

use grid_core::NoMemory;
use serde_json::{Map, Value};
use std::alloc::Global;

/// The members of an object, by key.
pub(crate) type Members = Map<String, Value>;

/// Returns the string of `bytes`, with U+FFFD for what isn't UTF-8.
pub(crate) fn text_value(alloc: Global, bytes: &[u8]) -> Result<Value, NoMemory>
    ensures { IfOk result (λ value. view value ≡ text_data bytes.now) }
{
    Ok(Value::from(String::from_utf8_lossy(alloc, bytes)?))
}

/// Returns the string of `text`, with U+FFFD for what isn't UTF-8; null if there is no text.
pub(crate) fn optional_text(alloc: Global, text: Option<&[u8]>) -> Result<Value, NoMemory>
    ensures { IfOk result (λ value.
        view value ≡ text_or_null (option_map (λ bytes. bytes.now) text.entry)) }
{
    match text {
        Some(bytes) => text_value(alloc, bytes),
        None => Ok(Value::Null),
    }
}

/// Returns the string `word`.
pub(crate) fn word_value(alloc: Global, word: &str) -> Result<Value, NoMemory>
    ensures { IfOk result (λ value. view value ≡ string word.now) }
{
    Ok(Value::try_from_str(alloc, word)?)
}

/// Returns a number, or null if there is none.
pub(crate) fn optional_number(number: Option<u32>) -> Value
    ensures { view result ≡ number_or_null number }
{
    match number {
        Some(number) => Value::from(number),
        None => Value::Null,
    }
}
