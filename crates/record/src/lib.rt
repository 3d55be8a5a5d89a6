// The sixteen bytes of a record, read and written.
#![tactic(auto)]

mod fields;
pub mod places;
mod rules;
mod written;

ghost use Rattle.std.specs.Prelude.{◌≡◌, length};
ghost use Rattle.record.specs.Form.{record_size, decode};

use events::Record;
pub use fields::{link_from, order_from, record_from, word_of};
use refusals::Fault;
pub use written::bytes_of;

// The record that sixteen bytes are, or which of the refusals 2 to 5 they get.
pub fn read_part(b: &[u8]) -> Result<Record, Fault>
    requires { length b.now ≡ record_size }
    ensures { result ≡ decode b.now }
{
    rules::first_fault(b)?;
    Ok(fields::record_from(b))
}
