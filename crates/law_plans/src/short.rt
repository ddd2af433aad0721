//! Laws of how long the texts of plans are, each carried by a function that does nothing.
ghost use Rattle.law_plans.specs.Short.{PlansAreShort, ShelvedTextsAreShort};

/// Texts that are shelved in place of the paths of a calm call have at most 4,095 bytes, or the call is cancelled as the kernel
/// with mounts refuses it.
pub fn shelved_texts_are_short()
    ensures { ShelvedTextsAreShort }
{}

/// So a calm call has a plan that agrees, with texts of at most 4,095 bytes.
pub fn plans_are_short()
    ensures { PlansAreShort }
{}
