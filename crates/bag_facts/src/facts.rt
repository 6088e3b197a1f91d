//! What is read of a bag.
ghost use Rattle.std.specs.Prelude.{◌≡◌, ◌≢◌, ◌⊎◌, ◌↔◌, [], IsTrue, IfOk, IfErr, OnOk, OnErr};
ghost use Rattle.std.specs.Prelude.{MatchOption, Any, Contains, codes};
ghost use Rattle.std.specs.Option.{option_copied};
ghost use Rattle.bag_text.specs.declared.alg.Alg.{Alg as AlgValue};
ghost use Rattle.bag_text.specs.Path.{is_payload_path};
ghost use Rattle.bag_text.specs.Rules.{rules_of};
ghost use Rattle.bag_read.specs.ManifestName.{tag_path};
ghost use Rattle.bag_read.specs.declared.tag_name.TagName.TheVariants as file_of;
ghost use Rattle.bag_tree.specs.Bag.{Bag, IsBag, HasFile, file, has_file};
ghost use Rattle.bag_tree.specs.Tree.{Keeps, NothingFailed};
ghost use Rattle.bag_facts.specs.Facts.{rules_in};
ghost use Rattle.bag_facts.specs.FactsOfBag.{AreJudged, AreParsed, AreRulesOf, HasItsFolder};
ghost use Rattle.bag_facts.specs.Given.{GivesTagFiles};
ghost use Rattle.bag_facts.specs.TagFacts.{name_of, AreEntriesOf, IsReadOf, IsDeclarationOf};
ghost use Rattle.bag_facts.specs.TagFacts.{IsMetadataOf, IsFetchListOf, IsManifestNamed};
ghost use Rattle.bag_facts.specs.TagFacts.{IsTagFileNamed};
ghost use Rattle.bag_facts.specs.Wanted.{ForListing, OpensUpTo, OpensWanted};
ghost use Rattle.bag_faults.specs.Options.{Wants};
ghost use Rattle.bag_facts.specs.TagReader.{OpensAll, OpensFirst, MayStopReading};
ghost use Rattle.bag_faults.specs.declared.options.Depth.TheVariants as depth_of;

use crate::listed_manifest::has_manifest;
use crate::pooling::pooled;
use crate::tag_reader::{TagBytes, read_tag_files};
use crate::{FetchList, Manifest, Metadata, TagFacts};
use bag_entries::Pool;
use bag_faults::{Depth, Options};
use bag_read::{Declaration, Kind, ManifestEntry, TagName, declared_rules};
use bag_text::{Alg, AlgSet, Items, Rules, is_payload};
use bag_tree::{FileEntry, Listing, Stop, Tree};
use std::alloc::{AllocError, Global};

/// What the checks need to know of a bag: its files, and its tag files, parsed once.
#[derive(Debug, Drop)]
pub struct Facts {
    /// What the facts were read for.
    pub options: Options,
    /// The files of the bag.
    pub listing: Listing,
    /// Each tag file that the options ask for and that is there, in the order of their paths.
    pub tags: Items<TagFacts>,
}

impl Facts {
    ghost use Rattle.bag_facts.specs.FactsOfBag.{IsFactsOf, IfBagRead};

    /// Lists the tree, and reads its tag files whole, in path order and each once: at every depth
    /// `bagit.txt`, and at the depths above `Declaration` also `bag-info.txt`, `fetch.txt` and the
    /// manifests of supported algorithms.
    ///
    /// The stop of a refusal names the file that was refused; it names none for the listing and
    /// when out of memory. Its cause is the tree's own answer, but for out of memory, which is
    /// reported only where the tree reported it or refused nothing. The facts are those of an
    /// honest tree's bag. Of any other tree they are those of a bag that has the files that it
    /// listed, with the bytes that it gave of the tag files, and the payload folder where the listing
    /// has it or names a payload file.
    pub fn read<T: Tree>(alloc: Global, tree: &mut T, options: Options) -> Result<Facts, Stop>
        ensures keeps { Keeps (T.state tree.old) (T.state tree.new) }
        ensures no_failure { OnOk result (NothingFailed (T.state tree.old) (T.state tree.new)) }
        ensures opens { OpensWanted options (T.state tree.old) (T.state tree.new) }
        ensures opened { IfOk result (λ facts.
            OpensAll options facts.listing.files (T.state tree.old) (T.state tree.new)) }
        ensures opened_first { OnErr result
            (((T.state tree.new).openings ≡ (T.state tree.old).openings)
            ⊎ ForListing (T.state tree.old) (λ files.
            OpensFirst options files (T.state tree.old) (T.state tree.new))) }
        ensures refused { IfErr result (λ stop. stop.path ≢ []
            → ForListing (T.state tree.old) (λ files.
            OpensUpTo options files stop.path (T.state tree.old) (T.state tree.new))) }
        ensures options { IfOk result (λ facts. facts.options ≡ options) }
        ensures facts { IfOk result (λ facts.
            IsTrue (T.state tree.old).honest → IsFactsOf (T.state tree.old).bag facts) }
        ensures seen { IfOk result (λ facts. (bag : Bag) × IsBag bag × IsFactsOf bag facts) }
        ensures gave { IfOk result (λ facts. (bag : Bag) × IsBag bag × IsFactsOf bag facts
            × GivesTagFiles
            options bag facts.listing.files (T.state tree.old) (T.state tree.new)) }
        ensures plain { OnOk result
            (IsTrue (T.state tree.old).honest → IsTrue (T.state tree.old).plain) }
        ensures stop { IfErr result (MayStopReading options (T.state tree.old) (T.state tree.new)) }
    {
        let listed = match tree.list() {
            Ok(listing) => listing,
            Err(cause) => return Err(Stop::without_path(alloc, cause)),
        };
        let listing = with_its_folder(listed);
        let read = read_tag_files(alloc, tree, listing.files.as_slice(), options)?;
        match Facts::of(alloc, options, listing, read) {
            Ok(facts) => Ok(facts),
            Err(_) => Err(Stop::out_of_memory(alloc)),
        }
    }

    /// What the bytes that were read say, by the rules of the version that they declare.
    fn of(
        alloc: Global,
        options: Options,
        listing: Listing,
        read: Vec<TagBytes>,
    ) -> Result<Facts, AllocError>
        ensures options { IfOk result (λ facts. facts.options ≡ options) }
        ensures listing { IfOk result (λ facts. facts.listing ≡ listing) }
        ensures tags { IfOk result (λ facts. AreJudged read.items facts.tags) }
    {
        let rules = rules_read(read.as_slice());
        let (listing, known) = pooled(alloc, listing)?;
        Ok(Facts {
            options,
            listing,
            tags: parse_all(alloc, &known, rules, read)?,
        })
    }

    /// What `bagit.txt` declares, where it is there.
    pub fn declaration(&self) -> Option<&Declaration>
        ensures { (bag : Bag) → IsFactsOf bag self.now
            → IsReadOf IsDeclarationOf (file bag (tag_path file_of.Declaration))
            (option_copied result) }
    {
        let Some(TagFacts::Declaration(declaration)) = self.tag(TagName::Declaration) else {
            return None;
        };
        Some(declaration)
    }

    /// The rules by which the bag is judged: those of 0.97 where that is the declared version, and
    /// else those of 1.0.
    pub fn rules(&self) -> Rules
        ensures { (bag : Bag) → IsFactsOf bag self.now → result ≡ rules_in bag }
    {
        match self.declaration() {
            Some(declaration) => rules_declared(declaration),
            None => Rules::V10,
        }
    }

    /// What is known of `bag-info.txt`, where it is there and the facts were read for more than the
    /// declaration.
    pub fn metadata(&self) -> Option<&Metadata>
        ensures { IfBagRead self.now (λ bag.
            IsReadOf (IsMetadataOf (rules_in bag)) (file bag (tag_path file_of.Info))
            (option_copied result)) }
    {
        let Some(TagFacts::Info(metadata)) = self.tag(TagName::Info) else {
            return None;
        };
        Some(metadata)
    }

    /// What is known of `fetch.txt`, where it is there and the facts were read for more than the
    /// declaration.
    pub fn fetch_list(&self) -> Option<&FetchList>
        ensures { IfBagRead self.now (λ bag.
            IsReadOf (IsFetchListOf (rules_in bag)) (file bag (tag_path file_of.Fetch))
            (option_copied result)) }
    {
        let Some(TagFacts::Fetch(list)) = self.tag(TagName::Fetch) else {
            return None;
        };
        Some(list)
    }

    /// What is known of a manifest, where it is there and the facts were read for more than the
    /// declaration.
    pub fn manifest(&self, kind: Kind, alg: Alg) -> Option<&Manifest>
        ensures { IfBagRead self.now (λ bag.
            IsReadOf (IsManifestNamed (rules_in bag) kind alg)
            (file bag (tag_path (file_of.Manifest kind alg))) (option_copied result)) }
    {
        let Some(TagFacts::Manifest(manifest)) = self.tag(TagName::Manifest(kind, alg)) else {
            return None;
        };
        Some(manifest)
    }

    /// What the facts were read for.
    pub fn options(&self) -> Options
        ensures { result ≡ self.now.options }
    {
        self.options
    }

    /// The files of the bag, in the order of their paths by bytes.
    pub fn files(&self) -> &[FileEntry]
        ensures { result.now ≡ self.now.listing.files }
    {
        self.listing.files.as_slice()
    }

    /// Whether the bag has a file at a path, found in time log n of its files, whatever the facts
    /// were read for.
    pub fn has_file(&self, path: &str) -> bool
        ensures { (bag : Bag) → IsFactsOf bag self.now → result ≡ has_file bag path.now }
    {
        self.listing
            .files
            .as_slice()
            .binary_search_by(|entry| entry.path.as_str().cmp(path))
            .is_ok()
    }

    /// The algorithms of which the bag has a manifest of this kind (RFC 8493, 2.1.3 and 2.2.1),
    /// whatever the facts were read for.
    pub fn algs(&self, kind: Kind) -> AlgSet
        ensures { (bag : Bag) → IsFactsOf bag self.now
            → (alg : AlgValue) → Contains result alg
            ↔ HasFile bag (tag_path (file_of.Manifest kind alg)) }
    {
        let files = self.listing.files.as_slice();
        let mut algs = AlgSet::empty();
        for alg in Alg::ALL {
            if has_manifest(files, kind, alg) {
                algs = algs.with(alg);
            }
        }
        algs
    }

    /// The entries of a manifest, in the order of their paths by bytes: none where it isn't there,
    /// or the facts were read for the declaration alone.
    pub fn entries(&self, kind: Kind, alg: Alg) -> &[ManifestEntry]
        ensures entries { IfBagRead self.now (λ bag.
            AreEntriesOf (rules_in bag) kind alg (file bag (tag_path (file_of.Manifest kind alg)))
            result.now) }
        ensures none { (bag : Bag) → IsFactsOf bag self.now
            → self.now.options.depth ≡ depth_of.Declaration → result.now ≡ [] }
    {
        if self.options.depth == Depth::Declaration {
            return &[];
        }
        match self.manifest(kind, alg) {
            Some(manifest) => manifest.entries.as_slice(),
            None => &[],
        }
    }

    /// What is known of a tag file, where it is there and wanted.
    fn tag(&self, name: TagName) -> Option<&TagFacts>
        ensures { (bag : Bag) → IsFactsOf bag self.now → Wants self.now.options name
            → IsReadOf (IsTagFileNamed (rules_in bag) name) (file bag (tag_path name))
            (option_copied result) }
    {
        find_tag(self.tags.as_slice(), name)
    }
}

/// A listing with the payload folder where it names a payload file, as every bag has it: an honest
/// tree's is as it was.
fn with_its_folder(listing: Listing) -> Listing
    ensures files { result.files ≡ listing.files }
    ensures folder { HasItsFolder result }
    ensures same { HasItsFolder listing → result ≡ listing }
{
    let has_data = listing.has_data || names_payload(listing.files.as_slice());
    Listing {
        files: listing.files,
        has_data,
    }
}

/// Whether one of the files is in the payload folder.
fn names_payload(files: &[FileEntry]) -> bool
    ensures { IsTrue result ↔ Any (λ file. IsTrue (is_payload_path file.path)) files.now }
{
    files.iter().any(|file| is_payload(file.path.as_str()))
}

/// What is known of a tag file among these.
fn find_tag(tags: &[TagFacts], name: TagName) -> Option<&TagFacts>
    ensures { MatchOption (option_copied result) (¬ (Any (λ tag. name_of tag ≡ name) tags.now))
        (λ tag. Contains tags.now tag × (name_of tag ≡ name)) }
{
    tags.iter().find(|tag| tag.name() == name)
}

/// The rules of what is declared.
fn rules_declared(declaration: &Declaration) -> Rules
    ensures { result ≡ rules_of declaration.now.version }
{
    match &declaration.version {
        Some(version) => Rules::of_version(Some(version.as_str())),
        None => Rules::V10,
    }
}

/// The rules of the version that the declaration among files that were read declares, and those of
/// 1.0 where it isn't among them.
fn rules_read(read: &[TagBytes]) -> Rules
    ensures { AreRulesOf read.now result }
{
    match find_declaration(read) {
        Some(file) => declared_rules(file.bytes.as_slice()),
        None => Rules::V10,
    }
}

/// The declaration among files that were read.
fn find_declaration(read: &[TagBytes]) -> Option<&TagBytes>
    ensures { MatchOption (option_copied result)
        (¬ (Any (λ file. file.name ≡ file_of.Declaration) read.now))
        (λ file. Contains read.now file × (file.name ≡ file_of.Declaration)) }
{
    read.iter().find(|file| file.name == TagName::Declaration)
}

/// What the bytes of each tag file say by the rules, in their order. The bytes of each go as soon
/// as it was read.
fn parse_all(
    alloc: Global,
    known: &Pool,
    rules: Rules,
    read: Vec<TagBytes>,
) -> Result<Items<TagFacts>, AllocError>
    ensures { IfOk result (AreParsed rules read.items) }
{
    let mut tags = Items::new(alloc);
    for file in read {
        tags.push(TagFacts::parse(alloc, known, rules, file)?)?;
    }
    Ok(tags)
}
