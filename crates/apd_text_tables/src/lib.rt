//! What the calls give that tables about texts are for: tokens, operators, readings and writings. Where the first field of a
//! row names operators, they hold for the row.
#![tactic(auto)]

mod count_rows;
mod drawn;
mod functional;
mod operator_rows;
mod read_back_rows;
mod reading_rows;
mod spelled;
mod token_rows;
mod write_rows;

use apd_rows::{Tables, Trial};
pub use count_rows::put_counts;

/// Adds what a call gives whose table is about what is written.
fn give_written(name: &str, trial: &mut Trial) -> Option<()> {
    match name {
        "writings" => write_rows::put_text(trial),
        "name_texts" => write_rows::put_name(trial),
        "read_back" | "read_back_everywhere" | "read_back_names" | "read_back_drawn" => {
            read_back_rows::put_read_back(name, trial)
        }
        _ => None,
    }
}

/// The tables of texts.
#[derive(Clone, Copy)]
pub struct TextTables;

impl Tables for TextTables {
    fn give(&self, name: &str, trial: &mut Trial) -> Option<()> {
        match name {
            "tokens" => token_rows::put_tokens(trial),
            "contents" => token_rows::put_first_content(trial),
            "operators" => operator_rows::put_meanings(trial),
            "definitions" => operator_rows::put_definitions(trial),
            "definitions_alike" => operator_rows::put_definitions_alike(trial),
            "readings" => reading_rows::put_reading(trial),
            "readings_nested" => reading_rows::put_nested(trial),
            "readings_alike" => reading_rows::put_nested_alike(trial),
            "readings_drawn" => reading_rows::put_drawn(trial),
            "counts" => count_rows::put_counts_of_row(trial),
            _ => give_written(name, trial),
        }
    }
}
