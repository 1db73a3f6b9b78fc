//! Lists in parentheses, with a comma between two items.
ghost use Rattle.std.specs.Prelude.{◌≡◌, ◌++◌, List, map, OnOk};
ghost use Rattle.flow_base.specs.declared.token.Word.{Word};
ghost use Rattle.flow_syntax.specs.Print.{spaced, behind_commas, between_commas, listed};

use crate::printer::Printer;
use flow_base::token::Mark;
use std::alloc::AllocError;

/// What stands in a list between commas.
pub trait Item {
    /// The words of its tokens.
    ghost item_words: { Self → List Word };

    fn print(&self, out: &mut Printer) -> Result<(), AllocError>
        ensures { OnOk result (out.new ≡ out.old ++ spaced (item_words self.now)) };
}

/// The items behind the first one.
fn print_behind_commas<T: Item>(out: &mut Printer, items: &[T]) -> Result<(), AllocError>
    ensures { OnOk result (out.new ≡ out.old ++ spaced (behind_commas (map T.item_words items.now))) }
{
    for item in items {
        out.mark(Mark::Comma)?;
        item.print(out)?;
    }
    Ok(())
}

fn print_between_commas<T: Item>(out: &mut Printer, items: &[T]) -> Result<(), AllocError>
    ensures { OnOk result (out.new ≡ out.old ++ spaced (between_commas (map T.item_words items.now))) }
{
    let Some((first, rest)) = items.split_first() else {
        return Ok(());
    };
    first.print(out)?;
    print_behind_commas(out, rest)?;
    Ok(())
}

/// Prints a list in parentheses, with commas between its items.
pub fn print_list<T: Item>(out: &mut Printer, items: &[T]) -> Result<(), AllocError>
    ensures { OnOk result (out.new ≡ out.old ++ spaced (listed (map T.item_words items.now))) }
{
    out.mark(Mark::Open)?;
    print_between_commas(out, items)?;
    out.mark(Mark::Close)?;
    Ok(())
}
