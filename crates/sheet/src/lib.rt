// The paper sheet: delivered samples as pages of rows, for maintenance to file. No public function has a `requires`.
#![tactic(auto)]

mod field;
mod page;
mod row;
mod row_text;
mod sheet;

pub use page::{PAGE_LEN, PAGE_SAMPLES};
pub use sheet::{sheet_len, write_page, write_sheet};
