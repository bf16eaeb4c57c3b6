//! The check of a draft, and the app of a file.

ghost use Rattle.std.specs.Prelude.{◌≡◌, true, Ok, IfOk, IfErr, length, map};
ghost use Rattle.rx_value.specs.Results.{RefusesOrMemory};
ghost use Rattle.app_tree.specs.Cover.{is_sound};
ghost use Rattle.app_tree.specs.DraftView.{draft_shape_of, written_item};
ghost use Rattle.app_tree.specs.Faults.{checked};
ghost use Rattle.app_tree.specs.Named.{named};
ghost use Rattle.app_tree.specs.Numbering.{readers};
ghost use Rattle.app_tree.specs.View.{shape_of};
ghost use Rattle.app_tree.specs.WellFormed.{IsWellFormed};
ghost use Rattle.app_reader.specs.Items.{read_at};
ghost use Rattle.app_check.specs.CachedReaders.{uncovered_from, written_readers};
ghost use Rattle.app_check.specs.Load.{refusal, or_refusal, unless_uncovered, checked_app, loaded, app_of_draft, app_of_tokens, of_token_error, of_read_error};
ghost use Rattle.app_check.specs.Words.{has_words};

use crate::error::LoadError;
use crate::item_faults::first_found;
use crate::item_resolve::items;
use crate::limits::FILE_LIMIT;
use crate::table::{NumberedTable, Table};
use crate::uncovered::first_uncovered;
use app_reader::{ReadError, read};
use app_tokens::{TokenError, TokenList, tokens};
use app_tree::{App, Draft, DraftItem};
use rx_value::Memory;
use std::alloc::Global;

/// The app that a draft stands for, or the first of the checks that it fails but for those of cached readers.
fn without_cover(alloc: Global, draft: &Draft) -> Result<App, LoadError>
    ensures accepted { IfOk result
        (λ app. checked (draft_shape_of draft.now) ≡ Ok (shape_of app)) }
    ensures refused { IfErr result (λ error. RefusesOrMemory refusal error
        (or_refusal (checked (draft_shape_of draft.now)))) }
{
    let written = draft.items().as_slice();
    let table = Table::new(alloc, written)?;
    match first_found(alloc, &table, written) {
        Err(Memory) => Err(LoadError::Memory),
        Ok(Some(found)) => Err(found.error(alloc)?),
        Ok(None) => {
            let table = NumberedTable::new(table);
            let items = items(alloc, &table, written)?;
            Ok(App::new(draft.budget(), items))
        }
    }
}

/// The app, unless one of its cached readers is refused. These are its items as they are written.
fn covered(alloc: Global, app: App, written: &[DraftItem]) -> Result<App, LoadError>
    requires { length (readers (shape_of app)) ≡ length (written_readers (map written_item written.now)) }
    ensures proper { IfOk result (λ made. IsWellFormed (shape_of made)
        × (is_sound (shape_of made) ≡ true)) }
    ensures accepted { IfOk result (λ made. unless_uncovered
        (uncovered_from (shape_of app) 0 (written_readers (map written_item written.now)))
        (shape_of app) ≡ Ok (shape_of made)) }
    ensures refused { IfErr result (λ error. RefusesOrMemory refusal error (unless_uncovered
        (uncovered_from (shape_of app) 0 (written_readers (map written_item written.now)))
        (shape_of app))) }
{
    // An app tells with its items that it is well formed.
    let _items = app.items();
    match first_uncovered(alloc, &app, written) {
        Err(Memory) => Err(LoadError::Memory),
        Ok(Some(refusal)) => Err(refusal),
        Ok(None) => Ok(app),
    }
}

/// The app that a draft stands for, or the first of the checks that it fails: that of the smallest place,
/// and of several at one place the one that stands first in [`app_tree::Fault`]. Where none of these fails, the
/// refusal is that of the first cached reader, in the order of the text, whose keys don't cover its body.
///
/// An app that is given is sound: equal values of a cached reader's keys give an equal outcome.
pub fn check(alloc: Global, draft: &Draft) -> Result<App, LoadError>
    ensures accepted { IfOk result
        (λ app. checked_app (draft_shape_of draft.now) ≡ Ok (shape_of app)) }
    ensures proper { IfOk result (λ app. IsWellFormed (shape_of app)
        × (is_sound (shape_of app) ≡ true)) }
    ensures refused { IfErr result
        (λ error. RefusesOrMemory refusal error (checked_app (draft_shape_of draft.now))) }
{
    match without_cover(alloc, draft) {
        Ok(app) => covered(alloc, app, draft.items().as_slice()),
        Err(error) => Err(error),
    }
}

fn of_token_error(error: TokenError) -> LoadError
    ensures { result ≡ of_token_error error }
{
    match error {
        TokenError::BadByte(place) => LoadError::BadByte(place),
        TokenError::OpenText(place) => LoadError::OpenText(place),
        TokenError::Memory => LoadError::Memory,
    }
}

fn of_read_error(error: ReadError) -> LoadError
    ensures { result ≡ of_read_error error }
{
    match error {
        ReadError::Unexpected(place) => LoadError::Unexpected(place),
        ReadError::TooDeep(place) => LoadError::TooDeep(place),
        ReadError::Memory => LoadError::Memory,
    }
}

fn app_of_tokens(alloc: Global, list: &TokenList<'_>) -> Result<App, LoadError>
    ensures accepted { IfOk result (λ app. app_of_draft (read_at list.now) ≡ Ok (shape_of app)) }
    ensures proper { IfOk result (λ app. IsWellFormed (shape_of app)
        × (is_sound (shape_of app) ≡ true)) }
    ensures refused { IfErr result
        (λ error. RefusesOrMemory refusal error (app_of_draft (read_at list.now))) }
{
    match read(alloc, list) {
        Ok(draft) => check(alloc, &draft),
        Err(error) => Err(of_read_error(error)),
    }
}

/// The app of a file. A file of more than [`FILE_LIMIT`] bytes is refused as too long; else it is refused for
/// the first byte that no token can have, then for the first token that the grammar doesn't allow, and then
/// for the first check that fails, as [`check`] has it. Each item of the app is named by a word that isn't
/// reserved, and the keys of each cached reader cover its body.
pub fn load(alloc: Global, bytes: &[u8]) -> Result<App, LoadError>
    ensures accepted { IfOk result (λ app. loaded bytes.now ≡ Ok (shape_of app)) }
    ensures proper { IfOk result (λ app. IsWellFormed (shape_of app)
        × (is_sound (shape_of app) ≡ true)) }
    ensures words { IfOk result (λ app. has_words (named (shape_of app)) ≡ true) }
    ensures refused { IfErr result (λ error. RefusesOrMemory refusal error (loaded bytes.now)) }
{
    if bytes.len() > FILE_LIMIT {
        return Err(LoadError::TooLong);
    }
    match tokens(alloc, bytes) {
        Ok(list) => app_of_tokens(alloc, &list),
        Err(error) => Err(of_token_error(error)),
    }
}
