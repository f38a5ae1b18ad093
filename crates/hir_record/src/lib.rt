// A function and its two tables as one record of bytes: checked, opened as a source, and loaded.
// An inner crate.
#![tactic(auto)]

ghost use Rattle.hir_record.specs.Fields.{FieldsFollow};

mod bytes;
mod checking;
mod counts;
mod loading;
mod opening;
mod source;

pub use checking::check;
pub use counts::Counts;
pub use loading::load;
pub use opening::open;
pub use source::RecordSource;

// Where each field of a row stands in a record.
pub fn fields_follow()
    ensures { FieldsFollow }
{}
