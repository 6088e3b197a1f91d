//! What a tree has answered.
ghost use Rattle.std.specs.Prelude.{◌≡◌, ◌+◌, ◌++◌, ◌∷◌, [], MatchResult, Some, length};
ghost use Rattle.bag_tree.specs.FileReads.{answer_of_read, gave_more};
ghost use Rattle.bag_tree.specs.declared.answer.Answer.TheVariants.{Given, Refused, Unlisted};
ghost use Rattle.bag_store.specs.Answered.{answer_to, bytes_given, count_after, fault_answering};
ghost use Rattle.bag_store.specs.Answered.{own_after, own_failures, replies_of};
ghost use Rattle.bag_store.specs.FileTree.{KeepsGiven, no_replies};

use bag_disk::{Failures, Refusal};
use bag_tree::{Answer, GivenFiles, Heard, Listing, TreeFault};

/// What a tree has answered, which only clauses read: how often it failed over what its disk gave,
/// what its listings and reads gave, the bytes that the open file gave, and the last answer. What
/// the disk's device refused is counted by the disk.
#[derive(Drop)]
pub(crate) struct Answered {
    failures: Failures,
    files: GivenFiles,
    given: Heard,
    last: Answer,
}

impl Answered {
    /// Nothing yet.
    pub(crate) fn nothing() -> Answered
        ensures failures { own_failures result ≡ 0 }
        ensures replies { replies_of result ≡ no_replies }
    {
        Answered {
            failures: Failures::none(),
            files: GivenFiles::nothing(),
            given: Heard::new(),
            last: Answer::Given,
        }
    }

    /// Notes what a listing gave.
    pub(crate) fn list(&mut self, listing: &Listing)
        ensures failures { own_failures self.new ≡ own_failures self.old }
        ensures listed { self.new.files.what.listed ≡ Some listing.now }
        ensures gave { self.new.files.what.gave ≡ self.old.files.what.gave }
        ensures given { bytes_given self.new ≡ bytes_given self.old }
        ensures last { self.new.last ≡ Given }
    {
        self.files.note_listing(listing);
        self.last = Answer::Given;
    }

    /// Notes that another call gave what was asked for.
    pub(crate) fn give(&mut self)
        ensures failures { own_failures self.new ≡ own_failures self.old }
        ensures given { KeepsGiven (replies_of self.old) (replies_of self.new) }
        ensures last { self.new.last ≡ Given }
    {
        self.last = Answer::Given;
    }

    /// Notes that a file was opened.
    pub(crate) fn open(&mut self, path: &str)
        ensures failures { own_failures self.new ≡ own_failures self.old }
        ensures listed { self.new.files.what.listed ≡ self.old.files.what.listed }
        ensures gave { self.new.files.what.gave ≡ self.old.files.what.gave ++ (path.now, []) ∷ [] }
        ensures given { bytes_given self.new ≡ 0 }
        ensures last { self.new.last ≡ Given }
    {
        self.files.note_opening(path);
        self.given = Heard::new();
        self.last = Answer::Given;
    }

    /// Notes that a read gave these bytes.
    pub(crate) fn read(&mut self, bytes: &[u8])
        ensures failures { own_failures self.new ≡ own_failures self.old }
        ensures listed { self.new.files.what.listed ≡ self.old.files.what.listed }
        ensures gave { self.new.files.what.gave ≡ gave_more self.old.files.what.gave bytes.now }
        ensures given { bytes_given self.new ≡ bytes_given self.old + length bytes.now }
        ensures last { self.new.last ≡ answer_of_read (length bytes.now) }
    {
        self.files.note_read(bytes);
        self.given.note(bytes);
        self.last = Answer::of_read(bytes.len());
    }

    /// Notes a refusal, and gives the fault that answers it. A failure that isn't the device's is
    /// counted.
    pub(crate) fn refuse(&mut self, refusal: Refusal) -> TreeFault
        ensures fault { result ≡ fault_answering refusal }
        ensures failures { own_failures self.new ≡ count_after refusal (own_failures self.old) }
        ensures given { KeepsGiven (replies_of self.old) (replies_of self.new) }
        ensures last { self.new.last ≡ Refused result }
    {
        let fault = self.fault_of(refusal);
        self.note(fault)
    }

    /// Notes how a call went that gives nothing, and gives what answers it, as `refuse` does.
    pub(crate) fn to(&mut self, done: Result<(), Refusal>) -> Result<(), TreeFault>
        ensures answer { result ≡ answer_to done }
        ensures failures { own_failures self.new ≡ own_after done (own_failures self.old) }
        ensures given { KeepsGiven (replies_of self.old) (replies_of self.new) }
        ensures last { MatchResult result
            (λ _. self.new.last ≡ Given) (λ fault. self.new.last ≡ Refused fault) }
    {
        match done {
            Ok(()) => {
                self.give();
                Ok(())
            }
            Err(refusal) => Err(self.refuse(refusal)),
        }
    }

    /// Notes that a listing was refused, and gives the fault that answers it, as `refuse` does.
    pub(crate) fn refuse_list(&mut self, refusal: Refusal) -> TreeFault
        ensures fault { result ≡ fault_answering refusal }
        ensures failures { own_failures self.new ≡ count_after refusal (own_failures self.old) }
        ensures given { KeepsGiven (replies_of self.old) (replies_of self.new) }
        ensures last { self.new.last ≡ Unlisted result }
    {
        let fault = self.fault_of(refusal);
        self.last = Answer::Unlisted(fault);
        fault
    }

    /// Notes the fault that answers a call.
    pub(crate) fn note(&mut self, fault: TreeFault) -> TreeFault
        ensures fault { result ≡ fault }
        ensures failures { own_failures self.new ≡ own_failures self.old }
        ensures given { KeepsGiven (replies_of self.old) (replies_of self.new) }
        ensures last { self.new.last ≡ Refused fault }
    {
        self.last = Answer::Refused(fault);
        fault
    }

    /// The fault that answers a refusal, where a failure that isn't the device's is counted.
    fn fault_of(&mut self, refusal: Refusal) -> TreeFault
        ensures fault { result ≡ fault_answering refusal }
        ensures failures { own_failures self.new ≡ count_after refusal (own_failures self.old) }
        ensures given { KeepsGiven (replies_of self.old) (replies_of self.new) }
    {
        match refusal {
            Refusal::Device => TreeFault::Device,
            Refusal::Special => self.failure(TreeFault::Special),
            Refusal::Name => self.failure(TreeFault::Name),
            Refusal::NotFound => TreeFault::NotFound,
            Refusal::TooMany => TreeFault::TooMany,
            Refusal::Memory => TreeFault::Memory,
            Refusal::Exists => TreeFault::Exists,
            Refusal::Contradicts | Refusal::InTheWay => self.failure(TreeFault::Device),
        }
    }

    /// Counts a failure.
    fn failure(&mut self, fault: TreeFault) -> TreeFault
        ensures fault { result ≡ fault }
        ensures failures { own_failures self.new ≡ own_failures self.old + 1 }
        ensures given { KeepsGiven (replies_of self.old) (replies_of self.new) }
    {
        self.failures.note();
        fault
    }
}
