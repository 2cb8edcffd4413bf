//! Rows of objects.

ghost use Rattle.std.specs.Prelude.{◌≡◌, IfOk, option_map};
ghost use Rattle.json.specs.Json.{document};
ghost use Rattle.json.specs.Find.{get};
ghost use Rattle.json.specs.Value.{value_view};
ghost use Rattle.convoy_traces.specs.Rows.{row_of_object, text_in};

use super::row::Row;
use json::Value;

/// The text of a string or of a number that a member of the object has; nothing where there is none.
fn text_of<'a>(object: &Value<'a>, name: &str) -> &'a [u8]
    ensures { result.now ≡ text_in (get name.now (value_view object.now)) }
{
    let Some(value) = object.get(name) else {
        return b"";
    };
    match value {
        Value::Number(text) => text.as_bytes(),
        Value::String(text) => text.as_bytes(),
        _ => b"",
    }
}

/// The row of an object.
pub fn row_of_object<'a>(object: &Value<'a>) -> Row<'a>
    ensures { result ≡ row_of_object (value_view object.now) }
{
    Row {
        event: text_of(object, "event"),
        message: text_of(object, "message"),
        group: text_of(object, "group"),
        from: text_of(object, "from"),
        time: text_of(object, "time"),
        stamp: text_of(object, "stamp"),
    }
}
