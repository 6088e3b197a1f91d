//! What a renewal makes of a bag, decided once by what is known of it.
ghost use Rattle.std.specs.Prelude.{◌≡◌, ◌&&◌, ◌||◌, [], not, if◌then◌else◌};
ghost use Rattle.bag_read.specs.ManifestName.{tag_path};
ghost use Rattle.bag_read.specs.declared.tag_name.TagName.TheVariants.{Declaration};
ghost use Rattle.bag_facts.specs.FactsOfBag.{IsFactsOf};
ghost use Rattle.bag_tree.specs.Bag.{Bag, has_file};
ghost use Rattle.bag_renewed.specs.Elements as elements;
ghost use Rattle.bag_renewed.specs.Renewed as renewed;
ghost use Rattle.bag_renewed.specs.Target as spec;
ghost use Rattle.bag_renewed.specs.Target.{in_first};

use crate::algorithms::{algs_there, has_some, members_of_either, members_of_first};
use crate::elements::asks_nothing;
use crate::{ElementChanges, Renewal};
use bag_facts::Facts;
use bag_read::{DECLARATION, Kind};
use bag_text::{AlgSet, Rules};

/// What a renewal makes of a bag.
#[derive(Clone, Copy, Debug)]
pub struct Target {
    /// The algorithms of the renewed bag's manifests.
    pub algs: AlgSet,
    /// Those of them whose payload manifest is kept.
    pub kept: AlgSet,
    /// Those of them whose payload manifest is written.
    pub written: AlgSet,
    /// The algorithms whose payload manifest is there, and is dropped.
    pub dropped: AlgSet,
    /// The rules of the renewed bag.
    pub rules: Rules,
    /// Whether what needs no change is kept, as it is where the rules stay.
    pub keeps: bool,
    /// Whether the declaration is there and is kept.
    pub keeps_declaration: bool,
    /// Whether `bag-info.txt` is written: something is asked of it, or nothing is kept.
    pub writes_info: bool,
    /// Whether the payload is read: a payload manifest is written, or one is dropped that isn't to
    /// go unchecked.
    pub reads_payload: bool,
}

/// What a renewal makes of the bag whose facts these are.
pub fn target_of(facts: &Facts, renewal: &Renewal) -> Target
    ensures { spec.IsTargetFor facts.now renewal.now result }
{
    let had = algs_there(facts, Kind::Payload);
    let keeps = keeps(facts, renewal);
    let algs = members_of_first(members_of_either(had, renewal.added), renewal.dropped);
    let kept = kept_algs(keeps, had, renewal.dropped);
    let written = members_of_first(algs, kept);
    let dropped = members_of_first(had, algs);
    Target {
        algs,
        kept,
        written,
        dropped,
        rules: new_rules(facts, renewal),
        keeps,
        keeps_declaration: keeps_declaration(facts, keeps),
        writes_info: writes_info(&renewal.elements, keeps),
        reads_payload: reads_payload(renewal, written, dropped),
    }
}

/// Whether a bag keeps what needs no change, as one does whose rules stay.
fn keeps(facts: &Facts, renewal: &Renewal) -> bool
    ensures { (bag : Bag) → IsFactsOf bag facts.now → result ≡ renewed.keeps bag renewal.now }
{
    match facts.rules() {
        Rules::V10 => true,
        Rules::V097 => !renewal.to_1_0,
    }
}

/// The rules of the renewed bag.
fn new_rules(facts: &Facts, renewal: &Renewal) -> Rules
    ensures { (bag : Bag) → IsFactsOf bag facts.now → result ≡ renewed.new_rules bag renewal.now }
{
    if renewal.to_1_0 {
        Rules::V10
    } else {
        facts.rules()
    }
}

/// The algorithms of the payload manifests that are kept, of those that a bag had.
fn kept_algs(keeps: bool, had: AlgSet, dropped: AlgSet) -> AlgSet
    ensures { result ≡ (if keeps then in_first had dropped else []) }
{
    if keeps {
        members_of_first(had, dropped)
    } else {
        AlgSet::empty()
    }
}

fn keeps_declaration(facts: &Facts, keeps: bool) -> bool
    ensures { (bag : Bag) → IsFactsOf bag facts.now
        → result ≡ (keeps && has_file bag (tag_path Declaration)) }
{
    keeps && facts.has_file(DECLARATION)
}

fn writes_info(changes: &ElementChanges, keeps: bool) -> bool
    ensures { result ≡ not (keeps && elements.asks_nothing changes.now) }
{
    !(keeps && asks_nothing(changes))
}

fn reads_payload(renewal: &Renewal, written: AlgSet, dropped: AlgSet) -> bool
    ensures { result ≡ (spec.has_some written
        || (not renewal.now.unchecked && spec.has_some dropped)) }
{
    let compares = !renewal.unchecked;
    has_some(written) || (compares && has_some(dropped))
}
