//! Laws of the definitions, each the contract of a function that does nothing.
ghost use Rattle.bag_stages.specs.ClashStage.{ClashesAndLeastsAreAllNames};
ghost use Rattle.bag_stages.specs.CompletenessStage.{IsOfCompleteness};
ghost use Rattle.bag_stages.specs.DeclarationStage.{IsOfDeclaration};
ghost use Rattle.bag_stages.specs.FetchStage.{IsOfFetch};
ghost use Rattle.bag_stages.specs.Laws.{AlikeIsAnEquivalence, FaultsAreListed, FaultsAreOfStage};
ghost use Rattle.bag_stages.specs.Laws.{NamesByKind};
ghost use Rattle.bag_stages.specs.ManifestsStage.{IsOfManifests};
ghost use Rattle.bag_stages.specs.MetadataStage.{IsOfMetadata};
ghost use Rattle.bag_stages.specs.PartsStage.{IsOfParts};
ghost use Rattle.bag_stages.specs.ValidityStage.{IsOfValidity};

/// The faults of each stage that needs no profile have codes of that stage.
pub fn faults_are_of_their_stage()
    ensures declaration { FaultsAreOfStage 1 IsOfDeclaration }
    ensures parts { FaultsAreOfStage 2 IsOfParts }
    ensures metadata { FaultsAreOfStage 3 IsOfMetadata }
    ensures fetch { FaultsAreOfStage 4 IsOfFetch }
    ensures manifests { FaultsAreOfStage 5 IsOfManifests }
    ensures completeness { FaultsAreOfStage 6 IsOfCompleteness }
    ensures validity { FaultsAreOfStage 7 IsOfValidity }
{}

/// Every bag has a list of the faults of each of these stages.
pub fn faults_are_listed()
    ensures declaration { FaultsAreListed IsOfDeclaration }
    ensures parts { FaultsAreListed IsOfParts }
    ensures metadata { FaultsAreListed IsOfMetadata }
    ensures fetch { FaultsAreListed IsOfFetch }
    ensures manifests { FaultsAreListed IsOfManifests }
    ensures completeness { FaultsAreListed IsOfCompleteness }
    ensures validity { FaultsAreListed IsOfValidity }
{}

/// To have one NFC form is an equivalence.
pub fn alike_is_an_equivalence()
    ensures { AlikeIsAnEquivalence }
{}

/// The names that clash and the least names of their classes are together all names, none twice.
pub fn clashes_and_leasts_are_all_names()
    ensures { ClashesAndLeastsAreAllNames }
{}

/// Payload manifests name payload files, and tag manifests other files.
pub fn names_by_kind()
    ensures { NamesByKind }
{}
