//! Laws of the definitions, each carried by a function that does nothing.
ghost use Rattle.pr_base.specs.Alike.{WalksEndAlike};
ghost use Rattle.pr_base.specs.KeptWalks.{WalksKeep};
ghost use Rattle.pr_base.specs.Maps.{MapsChange};
ghost use Rattle.pr_base.specs.Paths.{PathsHaveComponents, PathsJoin, TextsAreAbsolute, TextsHaveTheirNames};
ghost use Rattle.pr_base.specs.SameWalks.{WalksAgree};
ghost use Rattle.pr_base.specs.Texts.{NamesStandInFront, TextsAreToldApart};
ghost use Rattle.pr_base.specs.WalkLaws.{FoundIsShown, JumpIsShown, WalksGoByComponents};

/// Whatever bytes a path has, what stands between its slashes is `.`, `..` or a name.
pub fn paths_have_components()
    ensures { PathsHaveComponents }
{}

/// The components of the bytes of a text are its names, from the root down.
pub fn texts_have_their_names()
    ensures { TextsHaveTheirNames }
{}

/// Paths that are put together have the components of their parts.
pub fn paths_join()
    ensures { PathsJoin }
{}

/// The bytes of a text are a path from the root without a slash behind.
pub fn texts_are_absolute()
    ensures { TextsAreAbsolute }
{}

/// Two texts with the same bytes are one.
pub fn texts_are_told_apart()
    ensures { TextsAreToldApart }
{}

/// The names below a text are those that stand in front of it.
pub fn names_stand_in_front()
    ensures { NamesStandInFront }
{}

/// A walk looks at one component after the other; what comes behind a look depends on what it shows.
pub fn walks_go_by_components<S, F>()
    ensures { WalksGoByComponents S F }
{}

/// What a walk found is what its last component shows from the directory of the target.
pub fn found_is_shown<S, F>()
    ensures { FoundIsShown S F }
{}

/// What a walk found where a link of the process directory led is what that link shows.
pub fn jump_is_shown<S, F>()
    ensures { JumpIsShown S F }
{}

/// Two ways of looking, of which each names its places and what it finds.
pub trait LookTwice {
    type Place;

    type Found;

    type OtherPlace;

    type OtherFound;

    ghost use Rattle.pr_base.specs.Alike.{Likeness};

    /// What ties them.
    ghost likeness: { Likeness Self.Place Self.Found Self.OtherPlace Self.OtherFound };
}

/// Walks over two ways of looking that are alike end alike: with the same error, or at targets that correspond.
pub fn walks_end_alike<L: LookTwice>()
    ensures { WalksEndAlike L.likeness }
{}

/// Two ways of looking that show the same at each look of one walk give that walk both.
pub fn walks_agree<S, F>()
    ensures { WalksAgree S F }
{}

/// What is to hold all along a walk, and which looks keep it.
pub trait KeptWhere {
    type Place;

    type Found;

    ghost use Rattle.pr_base.specs.WalkFrame.{LookedAt, Target};

    /// What holds of the places that a walk goes through.
    ghost good: { Self.Place → Type 0 };

    /// The looks that keep it.
    ghost fine: { LookedAt Self.Place → Type 0 };

    /// What then holds of the target of the walk.
    ghost holds: { Target Self.Place Self.Found → Type 0 };
}

/// What fine looks keep holds all along a walk whose looks are fine, and its target has what such walks end with.
pub fn walks_keep<L: KeptWhere>()
    ensures { WalksKeep L.good L.fine L.holds }
{}

/// Finite maps with the same values are one, and a change of one shows at its key alone.
pub fn maps_change<X>()
    ensures { MapsChange X }
{}
