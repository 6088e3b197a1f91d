//! What `--help` says beside the arguments.

/// What the program does.
pub(crate) const ABOUT: &str = "\
Renews bags in place (BagIt 1.0, RFC 8493, and 0.97): manifests of further algorithms, metadata
elements of bag-info.txt, the version, which stays unless --to-1.0 is given.

Each payload file is read once at most, where an algorithm is added or dropped or the version
changes; its old checksums are compared with the very bytes of which the new ones are computed. A
bag in which a fault is found is refused, and nothing of it is changed. One tag file after the other
is put or removed, each whole; after an interruption the same command makes the renewed bag. Without
a request the tag manifests are written anew, and nothing else.";

/// What the arguments mean, the exit statuses and examples.
pub(crate) const AFTER: &str = "\
ALG is one of md5, sha1, sha224, sha256, sha384, sha512. LABEL=VALUE is cut at the first equals
sign; a value's blanks at both ends are dropped. Elements are first unset, then set, then appended,
those of each option in the order given.

Exit statuses, of several directories the greatest:
  0  each bag was renewed, or --dry-run found nothing against it
  1  a fault was found in a bag, which wasn't changed
  2  the arguments are refused
  3  a bag wasn't renewed for another reason, or memory ran out

Examples:
  Add SHA-512                    bagit-renew --add sha512 deposit
  Replace MD5 by SHA-256         bagit-renew --add sha256 --drop md5 deposit
  Set an accession number        bagit-renew --set \"External-Identifier=A 2026/17\" deposit
  Renew a copy by hard links     cp -al deposit renewed && sync && bagit-renew --add sha512 renewed";
