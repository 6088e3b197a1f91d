//! What is said on `err` where the system refused.
use bag_faults::put_line;
use bag_system::Trouble;
use bag_tree::{Out, Refused, put_pieces};
use std::alloc::Global;

/// Says on `err` where the system refused, and why, in a line after this name of the program, if
/// that is known and there is memory for it. If `err` refuses, that is reported no further.
pub fn say_trouble<E: Out>(alloc: Global, program: &str, trouble: Option<&Trouble>, err: &mut E) {
    let Some(trouble) = trouble else {
        return;
    };
    if let Ok(why) = format!(in alloc; "{trouble}") {
        let hint = hint_for(trouble.location(), why.as_str());
        let _ = put_trouble(
            program,
            trouble.location(),
            &[": ", why.as_str(), hint, "\n"],
            err,
        );
    }
}

/// What is said of a tar file that is taken for a folder.
const IS_TAR: &str = "; a tar file is checked by bagit --validate --tar";

/// What is said besides of a location at which the system refused for this reason.
fn hint_for(location: &str, why: &str) -> &'static str {
    if why == "not a folder" && location.ends_with(".tar") {
        IS_TAR
    } else {
        ""
    }
}

/// Hands a line to the output. The location is written as a field of a line.
pub fn put_trouble<E: Out>(
    program: &str,
    location: &str,
    why: &[&str],
    err: &mut E,
) -> Result<(), Refused> {
    put_pieces(err, &[program])?;
    put_line(location, why, err)
}
