//! The programs of rows.

use apd_base::MAX_FILE;
use apd_load::{Loaded, load};
use apd_rows::{MOST_ROW_NAMES, Trial};
use std::boxed::Box;

/// What the row's first field is loaded as.
pub fn loaded_of(trial: &mut Trial) -> Option<Box<Loaded>> {
    let text = trial.row.bytes(0);
    if text.len() > MAX_FILE || trial.scene.names.count() > MOST_ROW_NAMES {
        return None;
    }
    let loaded = load(trial.alloc, text, &mut trial.scene.names).ok()?;
    Box::new(trial.alloc, loaded).ok()
}
