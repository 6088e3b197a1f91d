//! What `--help` says beside the arguments.

/// What the program does.
pub(crate) const ABOUT: &str = "\
Makes bags of directories, or checks bags (BagIt 1.0, RFC 8493).

Without --validate each DIRECTORY is made a bag in place: its files move into a directory data in
it, and their checksums are written beside that directory. With --validate each DIRECTORY is
checked, and each fault is written on a line of its own, in a fixed order.";

/// The exit statuses and examples.
pub(crate) const AFTER: &str = "\
Exit statuses, of several directories the greatest:
  0  each bag is without the faults that were looked for, or was made
  1  a bag has faults, or the report began at --after, stopped at --max-faults or is of a part
  2  the arguments or the profile are refused
  3  something wasn't read or written, a bag wasn't made, reports aren't joined, or memory ran out

Examples:
  Check a bag, with all checksums        bagit --validate deposit
  Check it fast, without its checksums   bagit --validate --fast deposit
  Go on after a line of a report         bagit --validate --after \"$LINE\" deposit
  Join the reports of all parts          bagit --validate --join part.*
  Make a bag, with SHA-256 alone         bagit --sha256 photographs
  Make a bag, with a metadata element    bagit --contact-name Ann photographs";
