//! Laws of the definitions, each carried by a function that does nothing.
ghost use Rattle.pt_canon.specs.Laws.{AnswersAreOfTheirTexts, TextsAreLookedAt, TextsLeadToThemselves};
ghost use Rattle.pt_canon.specs.LookedPaths.{TextWalksAgree};
ghost use Rattle.pt_canon.specs.Remembering.{AgreementLasts, NothingAgrees, PausedAgrees};

/// Each case of looking at a component from a guest text.
pub fn texts_are_looked_at()
    ensures { TextsAreLookedAt }
{}

/// A walk along a text on which no link stands comes to that text.
pub fn texts_lead_to_themselves()
    ensures { TextsLeadToThemselves }
{}

/// The host text and the index of an answer are those of its guest text.
pub fn answers_are_of_their_texts()
    ensures { AnswersAreOfTheirTexts }
{}

/// Text walks are one where each host path at which the one looks is told alike, whatever the tags.
pub fn text_walks_agree()
    ensures { TextWalksAgree }
{}

/// A walker that remembers nothing agrees with every kernel.
pub fn nothing_agrees()
    ensures { NothingAgrees }
{}

/// So does one that is paused.
pub fn paused_agrees()
    ensures { PausedAgrees }
{}

/// A walker that agrees with a kernel does so with another one that tells the same of each steady host path.
pub fn agreement_lasts()
    ensures { AgreementLasts }
{}
