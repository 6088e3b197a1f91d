//! What the program says in lines of its own, each text once.

/// What begins a line about the program itself.
pub const PROGRAM: &str = "bagit-renew: ";

/// After an option whose value names something that is no algorithm.
pub const NOT_ALGORITHMS: &str = " takes algorithms, as sha256,sha512";

/// After an option whose value has no equals sign.
pub const NOT_AN_ELEMENT: &str = " takes LABEL=VALUE";

/// What is to be printed isn't the manifest of an algorithm.
pub const NOT_AN_ALGORITHM: &str = "--print takes an algorithm, as sha512";

/// A manifest is to be printed, and something else is asked for.
pub const PRINT_WITH_OTHERS: &str = "--print takes no other option but --quiet";

/// The manifests of several bags are to be printed.
pub const PRINT_SEVERAL: &str = "--print takes one directory";

/// What is said after the name of a bag that was renewed, and before the reason why another wasn't.
pub const RENEWED: &str = " renewed";

pub const NOT_RENEWED: &str = " not renewed: ";

/// Before the line of the bag's fault.
pub const FAULT: &str = "fault ";

/// After the path of what has the name of a tag file, and of a file that no manifest can name.
pub const IN_THE_WAY: &str = " in the way";

pub const CANT_BE_NAMED: &str = " can't be named";

/// After the path of a tag manifest that the renewal would leave as it is.
pub const OUT_OF_DATE: &str = " would be out of date";

/// After the path of a file of the payload that no payload manifest would name.
pub const IN_NO_MANIFEST: &str = " would be in no manifest";

/// The file that a bag of version 0.97 has, which is to become one of 1.0.
pub const FETCH: &str = "fetch.txt";

/// Before the file that couldn't be read, put or removed.
pub const READ: &str = "read";

pub const PUT: &str = "put";

pub const REMOVE: &str = "remove";

/// Between the name of a bag and that of a file that would be put or removed.
pub const WOULD_PUT: &str = " would put ";

pub const WOULD_REMOVE: &str = " would remove ";
