//! The law of misfits, for proofs.
ghost use Rattle.toml_edit_fits.specs.BrokenRules.{MisfitsAreBroken};

/// Each misfit of a tree is a place where its rule is broken.
pub fn broken()
    ensures { MisfitsAreBroken }
{}
