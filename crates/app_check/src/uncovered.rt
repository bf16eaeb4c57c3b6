//! The checks of cached readers, which come last.

ghost use Rattle.std.specs.Prelude.{◌≡◌, ◌≤◌, IfOk, length, map};
ghost use Rattle.app_tree.specs.declared.limits.TheConstants.{ITEM_LIMIT};
ghost use Rattle.app_tree.specs.DraftView.{written_item};
ghost use Rattle.app_tree.specs.Numbering.{readers};
ghost use Rattle.app_tree.specs.View.{shape_of};
ghost use Rattle.app_check.specs.CachedReaders.{uncovered, uncovered_from, is_written_reader, written_readers};

use crate::error::LoadError;
use crate::table::sort_of;
use app_tree::{App, DraftItem, Name, Sorts};
use key_cover::{Coverage, cover};
use read_text::text_of_read;
use rx_value::Memory;
use std::alloc::Global;

/// How the reader that is named so is refused, where this is met first in its body.
fn refusal(
    alloc: Global,
    app: &App,
    name: &Name,
    met: Coverage,
) -> Result<Option<LoadError>, Memory>
    ensures { IfOk result (λ refusal. refusal ≡ uncovered (shape_of app.now) name.now met) }
{
    match met {
        Coverage::Covered => Ok(None),
        Coverage::Missing(read) => {
            let spelled = text_of_read(alloc, app, read)?;
            let text = name.text.copy(alloc)?;
            Ok(Some(LoadError::Uncovered(text, spelled, name.place)))
        }
        Coverage::Isolated(_) => {
            let text = name.text.copy(alloc)?;
            Ok(Some(LoadError::IsolateInCached(text, name.place)))
        }
    }
}

fn is_reader(item: &DraftItem) -> bool
    ensures { result ≡ is_written_reader (written_item item.now) }
{
    Sorts::Readers.contain(sort_of(&item.form))
}

/// The first refusal of the app's cached readers, in rising number. These are the items as they are written.
pub fn first_uncovered(
    alloc: Global,
    app: &App,
    written: &[DraftItem],
) -> Result<Option<LoadError>, Memory>
    requires few { length (readers (shape_of app.now)) ≤ ITEM_LIMIT }
    requires all { length (readers (shape_of app.now)) ≡ length (written_readers (map written_item written.now)) }
    ensures { IfOk result (λ refusal. refusal
        ≡ uncovered_from (shape_of app.now) 0 (written_readers (map written_item written.now))) }
{
    let mut number = 0;
    'items: for item in written {
        if is_reader(item) {
            match refusal(alloc, app, &item.name, cover(app, number))? {
                Some(refusal) => return Ok(Some(refusal)),
                None => number += 1,
            }
        }
    }
    Ok(None)
}
