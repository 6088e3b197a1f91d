//! The order of faults, and their copies.
use bag_report::{CursorFault, Fault};
use std::alloc::Global;
use std::process::Abort;

/// Ascending: by stage, path, algorithm, line, code and detail.
const ASCENDING: &[&str] = &[
    "101 no-declaration z - - -",
    "201 no-payload-folder - - - -",
    "202 no-payload-manifest - - - -",
    "203 algorithm-unsupported manifest-crc.txt - - crc",
    "509 payload-manifest-not-listed tagmanifest-md5.txt md5 - manifest-md5.txt",
    "509 payload-manifest-not-listed tagmanifest-md5.txt md5 - manifest-sha1.txt",
    "506 tagmanifest-names-payload tagmanifest-md5.txt md5 1 data/a",
    "507 tagmanifest-names-tagmanifest tagmanifest-md5.txt md5 2 tagmanifest-sha1.txt",
    "501 manifest-line tagmanifest-md5.txt md5 10 -",
    "602 tag-file-missing Notes.txt md5 - -",
    "604 name-clash data/a - - data/A",
    "601 payload-file-missing data/a md5 - -",
    "601 payload-file-missing data/a sha1 - -",
    "603 payload-file-not-listed data/a sha1 - -",
    "601 payload-file-missing data/a sha256 - -",
    "601 payload-file-missing data/a sha512 - -",
    "601 payload-file-missing data/a%20b md5 - -",
    "601 payload-file-missing data/aa md5 - -",
    "601 payload-file-missing data/b md5 - -",
    "601 payload-file-missing data/%C3%A9 md5 - -",
    "701 payload-sum-differs data/a md5 - 0:1",
    "804 value-not-allowed bag-info.txt - 2 Bag-Count:1",
    "803 label-repeated bag-info.txt - 3 Bag-Count",
    "804 value-not-allowed bag-info.txt - 3 Bag-Count:2",
];

/// A copy of the fault of a line.
fn copied(stop: &impl Abort, alloc: Global, line: &str) -> Fault {
    let fault = Fault::from_line(alloc, line).expect(stop, "succeeds");
    fault.copy(alloc).expect(stop, "succeeds")
}

#[test]
fn copies_are_sorted_in_their_order(rt: HostRuntime) {
    let mut faults = Vec::new(rt.alloc());
    for line in ASCENDING.iter().rev() {
        faults
            .push(copied(&rt, rt.alloc(), *line))
            .expect(&rt, "succeeds");
    }
    faults.sort().expect(&rt, "succeeds");
    assert!(rt; faults.len() == ASCENDING.len());
    for (fault, wanted) in faults.iter().zip(ASCENDING) {
        let line = fault.to_line(rt.alloc()).expect(&rt, "succeeds");
        assert!(rt; line.as_str() == *wanted, "{line}");
    }
}

#[test]
fn out_of_memory_is_reported(rt: HostRuntime) {
    let told = CursorFault::Memory
        .to_string(rt.alloc())
        .expect(&rt, "succeeds");
    assert!(rt; told.as_str() == "out of memory");
}
