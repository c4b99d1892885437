//! Files of cases, which the test programs read. A line that begins with `====` or `----` is the title of a case, and the
//! lines up to the next title are the case. `====` begins a table, and each `----` below it a row of the table. What stands
//! before the first title is for the reader alone. The lines spell the text of the case:
//!
//! - a line that does not begin with `%` spells itself and a line end, which the last one of the case lacks;
//! - `%text WORDS` spells the words without a line end;
//! - `%byte CODE`, or `%byte CODE TIMES`, spells the byte with that code, as often as told;
//! - `%repeat TIMES WORDS` spells the words as often as told, with `#` standing for the number of times before and `$` for
//!   the number that is greater by one;
//! - `%before LINE` and `%after LINE` spell nothing there: the line stands before or behind the lines of each row of the table;
//! - other lines with `%` are settings, of which the program that runs the case says what they mean.
//!
//! Blank lines at the end of a case do not count.
#![tactic(auto)]

mod case;
mod file;

pub use case::Case;
pub use file::cases;
