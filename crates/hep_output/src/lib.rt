//! Text that programs read and write: the lines of records ([`records`]), numbers as shortest decimals ([`number`]),
//! and a whole text written to a stream ([`writer`]).
#![tactic(auto)]

mod attempt;
mod number;
pub mod records;
pub mod writer;

pub use attempt::PutFault;
pub use hep_base::append_number;
pub use number::number_before;
pub use records::{append_record, append_records, output_text, record_text};
pub use writer::put_all;
