//! Which part of a faulty line `expect` is at fault: its target, its form, its request, or its items.

ghost use Rattle.gc_texts.specs.Troubles.{IsExpectTrouble, IsPartsTrouble};

use crate::cuts::{before, behind};
use crate::item::items_trouble;
use crate::procedure::target_of;
use crate::task_line::cut_items;
use crate::trouble::{Trouble, request_trouble};

// What is at fault in the request and the items of a line `expect`. `Expect`: neither is.
fn parts_trouble(request: &[u8], items: &[u8]) -> Trouble
    ensures { IsPartsTrouble request.now items.now result }
{
    match request_trouble(request) {
        Trouble::NoForm => match items_trouble(items) {
            Some(trouble) => trouble,
            None => Trouble::Expect,
        },
        trouble => trouble,
    }
}

/// What is at fault in a line whose second word is `expect`. `Expect`: each of its parts reads.
pub(crate) fn expect_trouble(line: &[u8]) -> Trouble
    ensures { IsExpectTrouble line.now result }
{
    if target_of(before(b' ', line)).is_none() {
        return Trouble::Target;
    }
    match cut_items(behind(b' ', behind(b' ', line))) {
        Some((request, items)) => parts_trouble(request, items),
        None => Trouble::ExpectForm,
    }
}
