//! A tree of files that holds a bag.
ghost use Rattle.std.specs.Prelude.{◌≡◌, ◌<◌, ◌≤◌, ◌∷◌, ◌++◌, [], None, Some, IsTrue, IfOk, IfErr};
ghost use Rattle.std.specs.Prelude.{OnOk, OnErr, MatchResult, length, take, ◌+◌};
ghost use Rattle.bag_text.specs.Path.{is_path};
ghost use Rattle.bag_tree.specs.Bag.{IsBag, file};
ghost use Rattle.bag_tree.specs.Listing.{IsOrdered, IsListingOf};
ghost use Rattle.bag_tree.specs.Tree.{TreeState, Keeps, HasOpen, MayRefuseListing};
ghost use Rattle.bag_tree.specs.FileReads.{IsOpen, ReadsNext, answer_of_read, gave_more};
ghost use Rattle.bag_tree.specs.Tree.{MayRefuseOpening, MayRefuseRead};
ghost use Rattle.bag_tree.specs.declared.answer.Answer.TheVariants.{Given, Refused, Unlisted};

use crate::{Listing, TreeFault};

/// A tree of files, of which one at a time is open.
///
/// Its calls leave the bag as it is, and a call during which the device failed isn't answered Ok.
/// What an honest tree answers is what its bag holds; of another tree it is known which refusals it
/// answers, when a file is open, that a listing's paths are paths in order, and that only paths are
/// opened. Of any tree it is known what it gave: the last listing, and the bytes of each file that
/// was opened.
pub trait Tree {
    /// What the tree means: its bag, whether anything else stands there, whether it is honest, how
    /// many files and folders it has, how often its device has failed, which files were opened, what
    /// the last listing and the reads of each file gave, the rest of the open file and how much of
    /// it was read, what the last call answered, and what its device did, where it notes that.
    ghost state: { Self → TreeState };

    /// Lists all files with their sizes.
    ///
    /// `Device`, `Special` and `Name` come from the device. Something that is no file and no
    /// folder, or whose name isn't UTF-8, is never passed over by an honest tree. `TooMany` comes,
    /// of an honest tree, only where there are more than 16,777,216 files and folders, and
    /// `NotFound` never, since no path is asked for. A listing opens no file, and leaves the one
    /// that is open. Its refusal is reported apart from that of any other call.
    fn list(&mut self) -> Result<Listing, TreeFault>
        ensures keeps { Keeps (state self.old) (state self.new) }
        ensures no_failure { OnOk result ((state self.new).failures ≡ (state self.old).failures) }
        ensures openings { (state self.new).openings ≡ (state self.old).openings }
        ensures rest { (state self.new).rest ≡ (state self.old).rest }
        ensures ordered { IfOk result (λ listing. IsOrdered listing.files) }
        ensures plain { OnOk result
            (IsTrue (state self.old).honest → IsTrue (state self.old).plain) }
        ensures last { MatchResult result (λ _. (state self.new).last ≡ Given) (λ fault.
            (state self.new).last ≡ Unlisted fault) }
        ensures listed { MatchResult result
            (λ listing. (state self.new).listed ≡ Some listing)
            (λ _. (state self.new).listed ≡ (state self.old).listed) }
        ensures gave { (state self.new).gave ≡ (state self.old).gave }
        ensures honest { IfOk result (λ listing.
            IsTrue (state self.old).honest → IsListingOf (state self.old).bag listing) }
        ensures refused { IfErr result (MayRefuseListing (state self.old) (state self.new)) };

    /// Opens a file in place of the one that was open. After a refusal nothing is open. A text that
    /// isn't a path is always refused, so that nothing outside the tree is opened.
    fn open_file(&mut self, path: &str) -> Result<(), TreeFault>
        ensures keeps { Keeps (state self.old) (state self.new) }
        ensures no_failure { OnOk result ((state self.new).failures ≡ (state self.old).failures) }
        ensures opened { OnOk result
            ((state self.new).openings ≡ (state self.old).openings ++ path.now ∷ []) }
        ensures only_paths { OnOk result (IsTrue (is_path path.now)) }
        ensures file_open { OnOk result (HasOpen (state self.new)) }
        ensures given { OnOk result ((state self.new).given ≡ 0) }
        ensures last { MatchResult result (λ _. (state self.new).last ≡ Given) (λ fault.
            (state self.new).last ≡ Refused fault) }
        ensures listed { (state self.new).listed ≡ (state self.old).listed }
        ensures gave { MatchResult result
            (λ _. (state self.new).gave ≡ (state self.old).gave ++ (path.now, []) ∷ [])
            (λ _. (state self.new).gave ≡ (state self.old).gave) }
        ensures honest { OnOk result
            (IsTrue (state self.old).honest
            → IsOpen (file (state self.old).bag path.now) (state self.new).rest) }
        ensures closed { OnErr result ((state self.new).rest ≡ None) }
        ensures not_opened { OnErr result ((state self.new).openings ≡ (state self.old).openings) }
        ensures refused { IfErr result
            (MayRefuseOpening path.now (state self.old) (state self.new)) };

    /// Reads the next bytes of the open file into the buffer, and says how many; none at the file's
    /// end.
    ///
    /// A refusal leaves the rest of the file.
    fn read(&mut self, buffer: &mut [u8]) -> Result<usize, TreeFault>
        requires { 0 < length buffer.old }
        ensures keeps { Keeps (state self.old) (state self.new) }
        ensures no_failure { OnOk result ((state self.new).failures ≡ (state self.old).failures) }
        ensures openings { (state self.new).openings ≡ (state self.old).openings }
        ensures file_open { OnOk result (HasOpen (state self.old) × HasOpen (state self.new)) }
        ensures within { IfOk result (λ n. n ≤ length buffer.old) }
        ensures given { IfOk result (λ n. (state self.new).given ≡ (state self.old).given + n) }
        ensures last { MatchResult result (λ n. (state self.new).last ≡ answer_of_read n) (λ fault.
            (state self.new).last ≡ Refused fault) }
        ensures listed { (state self.new).listed ≡ (state self.old).listed }
        ensures gave { MatchResult result
            (λ n. (state self.new).gave ≡ gave_more (state self.old).gave (take n buffer.new))
            (λ _. (state self.new).gave ≡ (state self.old).gave) }
        ensures honest { IfOk result (λ n.
            IsTrue (state self.old).honest
            → ReadsNext (state self.old).rest (state self.new).rest n buffer.new) }
        ensures same { OnErr result ((state self.new).rest ≡ (state self.old).rest) }
        ensures refused { IfErr result
            (MayRefuseRead (state self.old) (state self.new)) };

    /// The bag of a tree is a bag: its paths are paths, and the folders that they need are there.
    ghost is_bag: { (tree : Self) → IsBag (state tree).bag };
}
