// What programs print: text put into a lent list, and text written to standard output.
#![tactic(auto)]

mod digits;
mod formatted;
mod output;
mod text;

pub use formatted::print;
pub use output::{
    write, write_after, write_failure, write_hex, write_number, write_refusal, write_signed,
};
pub use text::{put, put_after, put_hex, put_number, put_signed};
