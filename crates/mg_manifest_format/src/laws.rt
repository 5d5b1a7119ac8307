//! Laws of manifests. Each function does nothing: its contract is the law.

ghost use Rattle.mg_manifest_format.specs.Manifests.{OneManifestLaw};

/// A body spells at most one record of each version.
pub const fn one_spelling()
    ensures { OneManifestLaw }
{}
