//! What the types of rows give: their texts are UTF-8. Laws, which read and change nothing.
ghost use Rattle.std.specs.Prelude.{IsUtf8};
ghost use Rattle.flow_tables.specs.Names.{by_run, AllByRecursion};
ghost use Rattle.flow_sql.specs.Stored.{AreUtf8, IsUtf8Text, IsUtf8Run, IsUtf8Event};

use flow_base::text::RawText;
use flow_rows::rows::{EventRow, RunRow, StoreRows, TextRow};

fn text_is_utf8(text: &RawText)
    ensures { IsUtf8 text.now }
{
    let _bytes = text.as_str().as_bytes();
}

/// A row that has texts.
pub(crate) trait HasTexts {
    ghost utf8: { Self → Type 0 };

    fn is_utf8(&self)
        ensures { utf8 self.now };
}

impl HasTexts for TextRow {
    ghost utf8 = { IsUtf8Text };

    fn is_utf8(&self) {
        text_is_utf8(&self.body);
    }
}

impl HasTexts for RunRow {
    ghost utf8 = { IsUtf8Run };

    fn is_utf8(&self) {
        text_is_utf8(&self.flow);
        text_is_utf8(&self.req);
    }
}

impl HasTexts for EventRow {
    ghost utf8 = { IsUtf8Event };

    fn is_utf8(&self) {
        text_is_utf8(&self.body);
    }
}

pub(crate) fn all_are_utf8<R: HasTexts>(rows: &[R])
    ensures { AllByRecursion R.utf8 rows.now }
{
    for row in rows {
        row.is_utf8();
    }
}

/// Each text that was read is UTF-8.
pub fn rows_are_utf8(rows: &StoreRows)
    ensures { AreUtf8 (by_run rows.now) }
{
    all_are_utf8(rows.texts.as_slice());
    all_are_utf8(rows.runs.as_slice());
    all_are_utf8(rows.events.as_slice());
}
