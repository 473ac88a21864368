//! Models worked by hand that meet every premise of the headline. The functions do nothing.
#![tactic(auto)]

mod laws;

pub use laws::{
    checks_tell, explores_tell, neighbours_are_no_streams, neighbours_are_not_owed, streams_owe,
    whole_model, whole_modules, whole_modules_owe, whole_modules_show,
};
