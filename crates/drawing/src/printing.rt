// Printing the text of a layout onto a page.
ghost use Rattle.std.specs.Prelude.{◌≡◌, ℕ, ◌+◌, ◌<◌, ◌≤◌, false, cond, length, Ok, Err};
ghost use Rattle.drawing.specs.Pages.{Prints};
ghost use Rattle.drawing.specs.Texts.{Continues};
ghost use Rattle.drawing.specs.Walks.{SamePlaces};

use crate::guard::MarkGuard;
use crate::pending::Pending;
use crate::walking::Walk;
use families::family::Family;
use files::fault::Fault;
use files::item::Item;

// Puts the literals of the walk's layout on the page, word by word.
#[tactic(auto, using(crate::proofs::Texts::continues_trans))]
fn put_words(walk: &mut Walk<'_>, text: &mut MarkGuard<'_>) -> Result<(), Fault>
    ensures same { SamePlaces walk.old walk.new }
    ensures continued { Continues text.old text.new }
{
    walk.begin()?;
    while let Some(item) = walk.next_item()? {
        if let Item::Literal { label, .. } = item {
            text.put_word(walk.descent.family.label(label).text())?;
        }
    }
    Ok(())
}

// Prints the text of the layout of name y that the list tells behind the page's mark, and moves the mark past it.
// A refusal leaves the mark where it was.
pub fn print(
    family: &Family,
    name: usize,
    list: &[u8],
    stack: &mut [Pending],
    page: &mut [u8],
    mark: &mut usize,
) -> Result<(), Fault>
    ensures { Prints result (length family.now.grammar.rules.items) name list.now (length stack.old) page.old page.new mark.old mark.new }
{
    if name >= family.names() {
        return Err(Fault::UnknownName);
    }
    if stack.len() < list.len() {
        return Err(Fault::StackTooShort);
    }
    let mut walk = Walk::new(family, name, list, stack);
    walk.check()?;
    if *mark > page.len() {
        return Err(Fault::PageTooShort);
    }
    let mut text = MarkGuard::new(page, mark);
    put_words(&mut walk, &mut text)?;
    text.finished = true;
    Ok(())
}
