//! Laws of the targets of calls, each carried by a function that does nothing.
ghost use Rattle.std.specs.Prelude.{ℕ, List};
ghost use Rattle.law_allowed.specs.kr_view.View.{Row};
ghost use Rattle.kr_perform.specs.Naming.{WalksName};
ghost use Rattle.kr_perform.specs.Resolving.{WalksResolve};

/// What the walks of a call lead to over a lawful state is what the call rests on.
pub fn walks_resolve<T, const M: u8>()
    ensures { (number : T → ℕ) (table : List Row) → WalksResolve M number table }
{}

/// And they have the names on which states rest that calls leave.
pub fn walks_name()
    ensures { WalksName }
{}
