//! The texts that refusals and codes show themselves as, to users and in logs.
use crate::held::text_of;
use bag_arguments::{CheckOption, Usage};
use bag_cli::ProfileRefusal;
use bag_disk::{DiskFault, Refusal};
use bag_make::MakeFault;
use bag_profile::{Key, ProfileFault};
use bag_store::{Stop, TreeFault};
use bag_text::Code;
use std::alloc::Global;
use std::fmt::{Debug, Display};
use std::process::Abort;

/// A refusal is shown to users as one text, and in logs as the other.
fn try_shown<T: Display + Debug>(
    stop: &impl Abort,
    alloc: Global,
    refusal: &T,
    (shown, logged): (&str, &str),
) {
    let found = format!(in alloc; "{refusal}").expect(stop, "succeeds");
    assert!(stop; found.as_str() == shown, "{found}");
    let found = format!(in alloc; "{refusal:?}").expect(stop, "succeeds");
    assert!(stop; found.as_str() == logged, "{found}");
}

/// The refusal to read a file.
fn unread(stop: &impl Abort, alloc: Global) -> Stop {
    Stop {
        cause: TreeFault::NotFound,
        path: text_of(stop, alloc, "data/a"),
    }
}

/// Options without `--validate`.
const OPTIONS: &[(CheckOption, (&str, &str))] = &[
    (
        CheckOption::DeclarationOnly,
        (
            "bagit: --declaration-only needs --validate",
            "NeedsValidate(DeclarationOnly)",
        ),
    ),
    (
        CheckOption::Fast,
        ("bagit: --fast needs --validate", "NeedsValidate(Fast)"),
    ),
    (
        CheckOption::CompletenessOnly,
        (
            "bagit: --completeness-only needs --validate",
            "NeedsValidate(CompletenessOnly)",
        ),
    ),
    (
        CheckOption::Profile,
        (
            "bagit: --profile needs --validate",
            "NeedsValidate(Profile)",
        ),
    ),
    (
        CheckOption::After,
        ("bagit: --after needs --validate", "NeedsValidate(After)"),
    ),
    (
        CheckOption::MaxFaults,
        (
            "bagit: --max-faults needs --validate",
            "NeedsValidate(MaxFaults)",
        ),
    ),
    (
        CheckOption::Clashes,
        (
            "bagit: --clashes needs --validate",
            "NeedsValidate(Clashes)",
        ),
    ),
    (
        CheckOption::Part,
        ("bagit: --part needs --validate", "NeedsValidate(Part)"),
    ),
    (
        CheckOption::Tar,
        ("bagit: --tar needs --validate", "NeedsValidate(Tar)"),
    ),
    (
        CheckOption::Join,
        ("bagit: --join needs --validate", "NeedsValidate(Join)"),
    ),
];

#[test]
fn options_that_need_a_check(rt: HostRuntime) {
    for &(option, texts) in OPTIONS {
        try_shown(&rt, rt.alloc(), &Usage::NeedsValidate(option), texts);
    }
}

#[test]
fn refused_words(rt: HostRuntime) {
    let texts = (
        "bagit: more than one of --declaration-only, --fast, --completeness-only",
        "TwoDepths",
    );
    try_shown(&rt, rt.alloc(), &Usage::TwoDepths, texts);
    let texts = ("bagit: --after takes one directory", "AfterSeveral");
    try_shown(&rt, rt.alloc(), &Usage::AfterSeveral, texts);
    let texts = ("bagit: --after is not a fault line", "AfterNotALine");
    try_shown(&rt, rt.alloc(), &Usage::AfterNotALine, texts);
    let texts = (
        "bagit: --part takes none of --declaration-only, --fast, --completeness-only",
        "PartOfDepth",
    );
    try_shown(&rt, rt.alloc(), &Usage::PartOfDepth, texts);
    let texts = (
        "bagit: --part is not K/N, with 1 <= K <= N <= 65536",
        "NotAPart",
    );
    try_shown(&rt, rt.alloc(), &Usage::NotAPart, texts);
    let texts = (
        "bagit: --join takes neither --quiet nor another option of a check",
        "JoinWithOther",
    );
    try_shown(&rt, rt.alloc(), &Usage::JoinWithOther, texts);
    let texts = ("bagit: out of memory", "Memory");
    try_shown(&rt, rt.alloc(), &Usage::Memory, texts);
    let refused = Usage::Refused(text_of(&rt, rt.alloc(), "error: 'x'\n"));
    let texts = ("error: 'x'\n", "Refused(\"error: 'x'\\n\")");
    try_shown(&rt, rt.alloc(), &refused, texts);
}

/// Why a tree refused a call.
const CAUSES: &[(TreeFault, (&str, &str))] = &[
    (TreeFault::Device, ("device", "Device")),
    (TreeFault::Special, ("special", "Special")),
    (TreeFault::Name, ("name", "Name")),
    (TreeFault::NotFound, ("not-found", "NotFound")),
    (TreeFault::TooMany, ("too-many", "TooMany")),
    (TreeFault::Changed, ("changed", "Changed")),
    (TreeFault::NoneOpen, ("none-open", "NoneOpen")),
    (TreeFault::Memory, ("memory", "Memory")),
    (TreeFault::Exists, ("exists", "Exists")),
];

#[test]
fn refused_calls(rt: HostRuntime) {
    for &(cause, texts) in CAUSES {
        try_shown(&rt, rt.alloc(), &cause, texts);
    }
    let texts = (
        "data/a not-found",
        "Stop { cause: NotFound, path: \"data/a\" }",
    );
    try_shown(&rt, rt.alloc(), &unread(&rt, rt.alloc()), texts);
}

/// Why a call of a disk is refused, and what that is to a tree.
const DISK_FAULTS: &[(DiskFault, (&str, &str))] = &[
    (DiskFault::NotFound, ("not-found", "NotFound")),
    (DiskFault::Exists, ("exists", "Exists")),
    (DiskFault::Name, ("name", "Name")),
    (DiskFault::Memory, ("memory", "Memory")),
    (DiskFault::Device, ("device", "Device")),
];

const REFUSALS: &[(Refusal, (&str, &str))] = &[
    (Refusal::Device, ("device", "Device")),
    (Refusal::Special, ("special", "Special")),
    (Refusal::Name, ("name", "Name")),
    (Refusal::NotFound, ("not-found", "NotFound")),
    (Refusal::TooMany, ("too-many", "TooMany")),
    (Refusal::Memory, ("memory", "Memory")),
    (Refusal::Exists, ("exists", "Exists")),
    (Refusal::Contradicts, ("device", "Contradicts")),
    (Refusal::InTheWay, ("device", "InTheWay")),
];

#[test]
fn refused_disks(rt: HostRuntime) {
    for &(fault, texts) in DISK_FAULTS {
        try_shown(&rt, rt.alloc(), &fault, texts);
    }
    for &(refusal, texts) in REFUSALS {
        try_shown(&rt, rt.alloc(), &refusal, texts);
    }
}

/// Why there is no profile.
const PROFILE_REFUSALS: &[(ProfileRefusal, (&str, &str))] = &[
    (ProfileRefusal::Unread, ("profile unread", "Unread")),
    (
        ProfileRefusal::Refused(ProfileFault::NotJson),
        ("profile: not JSON", "Refused(NotJson)"),
    ),
    (
        ProfileRefusal::Refused(ProfileFault::NoIdentifier),
        ("profile: no identifier", "Refused(NoIdentifier)"),
    ),
    (
        ProfileRefusal::Refused(ProfileFault::WrongShape(Key::BagInfo)),
        (
            "profile: wrong shape: Bag-Info",
            "Refused(WrongShape(BagInfo))",
        ),
    ),
    (
        ProfileRefusal::Refused(ProfileFault::Memory),
        ("out of memory", "Refused(Memory)"),
    ),
];

#[test]
fn refused_profiles(rt: HostRuntime) {
    for &(refusal, texts) in PROFILE_REFUSALS {
        try_shown(&rt, rt.alloc(), &refusal, texts);
    }
}

#[test]
fn refused_makings(rt: HostRuntime) {
    let texts = ("no algorithm", "NoAlgorithm");
    try_shown(&rt, rt.alloc(), &MakeFault::NoAlgorithm, texts);
    let texts = (".bagit-new is there", "InTheWay");
    try_shown(&rt, rt.alloc(), &MakeFault::InTheWay, texts);
    let texts = ("bad value", "BadValue");
    try_shown(&rt, rt.alloc(), &MakeFault::BadValue, texts);
    let stopped = MakeFault::ReadStopped(unread(&rt, rt.alloc()));
    let texts = (
        "read data/a not-found",
        "ReadStopped(Stop { cause: NotFound, path: \"data/a\" })",
    );
    try_shown(&rt, rt.alloc(), &stopped, texts);
    let texts = ("out of memory", "Memory");
    try_shown(&rt, rt.alloc(), &MakeFault::Memory, texts);
    let refused = MakeFault::StepRefused(u64::MAX, TreeFault::Exists);
    let texts = (
        "step 18446744073709551615 exists",
        "StepRefused(18446744073709551615, Exists)",
    );
    try_shown(&rt, rt.alloc(), &refused, texts);
}

/// A code shows itself as the word of its line.
#[test]
fn codes(rt: HostRuntime) {
    let mut count = 0usize;
    for number in 0..1000 {
        if let Some(code) = Code::from_number(number) {
            let found = format!(in rt.alloc(); "{code:?}").expect(&rt, "succeeds");
            assert!(rt; found.as_str() == code.word(), "{found}");
            count = count.wrapping_add(1);
        }
    }
    assert_eq!(rt; count, 49);
}
