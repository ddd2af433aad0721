//! What is known of steady host texts along one path.
ghost use Rattle.std.specs.Prelude.{◌≡◌, true, Some, None, IfOk, if◌then◌else◌};
ghost use Rattle.pt_bind.specs.pr_base.Peeks.{FrontsAreSteady, Peeked};
ghost use Rattle.pt_bind.specs.Binding.{IsWritten, names_of};
ghost use Rattle.pt_canon.specs.Leaving.{OnlyPeeks};
ghost use Rattle.pt_canon.specs.Steadily.{IsSure};
ghost use Rattle.pt_canon.specs.TextWalk.{itself_in};

use crate::host::{is_itself_steady, is_steady};
use pt_bind::below::pr_base::{Bytes, NoMemory, Peeks};
use pt_bind::rest_below;
use std::alloc::Global;
use std::marker::Model;

/// A host text that is known to be steady, if one is, which contracts see as its bytes. Then so is each that stands in front of it, of which the
/// kernel isn't asked.
#[derive(Drop)]
pub(crate) struct Sure {
    host: Option<Bytes>,
}

impl Model for Sure {
    ghost use Rattle.std.specs.Prelude.{ℕ, List, Option, IfSome};
    ghost use Rattle.pt_bind.specs.Binding.{IsWritten};

    ghost Value = { Option (List ℕ) };

    ghost view = { λ s. s.host };

    ghost invariant = { λ s. IfSome s.host IsWritten };
}

impl Sure {
    /// None is known.
    pub(crate) fn nothing() -> Sure
        ensures { result ≡ None }
    {
        Sure { host: None }
    }

    /// A host text, if it is steady.
    pub(crate) fn by(host: Bytes, is_steady: bool) -> Sure
        requires { IsWritten host }
        ensures { result ≡ (if is_steady then Some host else None) }
    {
        if !is_steady {
            return Sure::nothing();
        }
        Sure { host: Some(host) }
    }

    /// Whether the walk to a host text is steady.
    pub(crate) fn is_steady<K: Peeks>(&self, kernel: &mut K, host: &[u8]) -> Result<bool, NoMemory>
        requires written { IsWritten host.now }
        requires sure { IsSure (K.peeked kernel.old) self.now }
        ensures answer { IfOk result (λ steady. steady ≡ (K.peeked kernel.old).steady host.now) }
        ensures unmet { K.unmet kernel.new ≡ K.unmet kernel.old }
        ensures kernel { OnlyPeeks K.peeked K.kept kernel.old kernel.new }
    {
        if self.covers(host) {
            return Ok(true);
        }
        is_steady(kernel, host)
    }

    /// Whether the walk to the directory at a host text, looked up in itself, is steady.
    pub(crate) fn is_itself_steady<K: Peeks>(
        &self,
        alloc: Global,
        kernel: &mut K,
        host: &[u8],
    ) -> Result<bool, NoMemory>
        requires written { IsWritten host.now }
        requires sure { IsSure (K.peeked kernel.old) self.now }
        ensures answer { IfOk result (λ steady. steady ≡ (K.peeked kernel.old).steady (itself_in (names_of host.now))) }
        ensures unmet { K.unmet kernel.new ≡ K.unmet kernel.old }
        ensures kernel { OnlyPeeks K.peeked K.kept kernel.old kernel.new }
    {
        if self.covers_itself(host) {
            return Ok(true);
        }
        is_itself_steady(alloc, kernel, host)
    }

    /// Whether a host text is the one that is known, or stands in front of it.
    fn covers(&self, host: &[u8]) -> bool
        requires { IsWritten host.now }
        ensures { result ≡ true → (peeked : Peeked) → FrontsAreSteady peeked → IsSure peeked self.now → peeked.steady host.now ≡ true }
    {
        let Some(sure) = &self.host else {
            return false;
        };
        match rest_below(host, sure.as_slice()) {
            Some(_) => true,
            None => false,
        }
    }

    /// Whether a host text is that of a directory above the one that is known.
    fn covers_itself(&self, host: &[u8]) -> bool
        requires { IsWritten host.now }
        ensures { result ≡ true → (peeked : Peeked) → FrontsAreSteady peeked → IsSure peeked self.now → peeked.steady (itself_in (names_of host.now)) ≡ true }
    {
        let Some(sure) = &self.host else {
            return false;
        };
        match rest_below(host, sure.as_slice()) {
            Some(rest) => !rest.is_empty(),
            None => false,
        }
    }
}
