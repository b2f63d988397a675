// Drawing the layout of a number: a walk with a lent list and a lent stack.
ghost use Rattle.std.specs.Prelude.{◌≡◌, ℕ, ◌+◌, ◌-◌, ◌*◌, ◌<◌, ◌≤◌, false, length};
ghost use Rattle.tables.specs.Tables.{names_open};
ghost use Rattle.tables.specs.Openings.{count_at};
ghost use Rattle.drawing.specs.Draws.{Draws, LeftOver};

use crate::choosing::Choice;
use crate::descent::Descent;
use crate::numbering::Numbering;
use crate::order::SplitOrder;
use crate::pending::Pending;
use crate::stack::Stack;
use files::fault::Fault;
use tables::open_table::OpenTable;

// Writes the choices of the layout that begins with a choice, and answers how many there are. The two pushes stand apart: a
// function of both would have to repeat what `Stack::push` ensures.
fn visit<O: SplitOrder>(
    numbering: &Numbering<'_, O>,
    first: Choice,
    list: &mut [u8],
    stack: &mut [Pending],
) -> Result<usize, Fault>
    requires { length list.old ≤ length stack.old }
    ensures { LeftOver result list.old list.new }
{
    let mut choices = Stack::new(list);
    let mut descent = Descent::new(numbering.family, first.inside, stack);
    if choices.is_full() {
        return Err(Fault::ListTooShort);
    }
    choices.push(first.number);
    while let Some(item) = descent.next_item() {
        let step = numbering.step(descent.current, item);
        match step.choice {
            None => descent.current = step.rest,
            Some(choice) => {
                if choices.is_full() {
                    return Err(Fault::ListTooShort);
                }
                choices.push(choice.number);
                descent.enter(choice.inside, step.rest);
            }
        }
    }
    Ok(choices.height)
}

// Writes the choice list of the layout of name y and a size that has the number, by the order, and answers its length.
// The places behind are untouched. Where the list is too short it is full of the first choices; any other refusal leaves it
// as it was.
pub fn draw<O: SplitOrder>(
    opened: &OpenTable<'_, '_>,
    order: &O,
    name: usize,
    size: usize,
    number: u64,
    list: &mut [u8],
    stack: &mut [Pending],
) -> Result<usize, Fault>
    ensures { Draws result opened.now name size number list.old list.new (length stack.old) }
{
    let family = opened.family().ok_or(Fault::UnknownName)?;
    if name >= family.names() {
        return Err(Fault::UnknownName);
    }
    if size > opened.top() {
        return Err(Fault::SizeTooLarge);
    }
    // The largest count stands for that many or more.
    let total = opened.count(name, size);
    if total == u64::MAX {
        return Err(Fault::TotalCapped);
    }
    if number >= total {
        return Err(Fault::NumberTooLarge);
    }
    if stack.len() < list.len() {
        return Err(Fault::StackTooShort);
    }
    let numbering = Numbering {
        opened,
        family,
        order,
    };
    let first = numbering.choose(name, size, number);
    visit(&numbering, first, list, stack)
}
