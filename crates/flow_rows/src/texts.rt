ghost use Rattle.std.specs.Prelude.{◌≡◌, IfOk};
ghost use Rattle.flow_model.specs.Checked.{is_program_by};
ghost use Rattle.flow_rows.specs.Damages.{first_of, damages_of_texts};

use crate::rows::TextRow;
use flow_base::fault::{Damage, Table};
use flow_base::text::RawText;
use flow_model::texts::Texts;
use std::alloc::{AllocError, Global};

/// Whether a text is a program that keeps the checking rules.
fn is_program<T: Texts>(alloc: Global, texts: &T, text: &RawText) -> Result<bool, AllocError>
    ensures { IfOk result (λ b. b ≡ is_program_by T.meaning text.now) }
{
    match texts.read(alloc, text)? {
        Ok(_) => Ok(true),
        Err(_) => Ok(false),
    }
}

/// The first damage of the texts.
pub fn text_damage<T: Texts>(
    alloc: Global,
    texts: &T,
    rows: &[TextRow],
) -> Result<Option<Damage>, AllocError>
    ensures { IfOk result (λ o. o ≡ first_of (damages_of_texts (is_program_by T.meaning) 1 rows.now)) }
{
    for i in 0..rows.len() {
        let place = i as i64 + 1;
        if rows[i].num != place || !is_program(alloc, texts, &rows[i].body)? {
            return Ok(Some(Damage {
                table: Table::Text,
                run: 0,
                place,
                cause: None,
            }));
        }
    }
    Ok(None)
}
