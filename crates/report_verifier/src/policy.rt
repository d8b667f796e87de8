ghost use Rattle.std.specs.Prelude.{◌≡◌, ◌++◌, ◌∷◌, [], OnOk, IfSome, IsTrue};
ghost use Rattle.report_verifier.specs.{Policy.expect_at, PolicyGrammar.has_request, Validity.are_valid_for};

use crate::asked::Asked;
use crate::expect::Expect;
use crate::flag_kind::FlagKind;
use device_types::{Bounds, Version};
use std::alloc::{AllocError, Global};
use std::marker::Model;

/// The bounds and the flag that a report shall name, and the requests that were sent.
#[derive(Debug, Drop)]
pub struct Policy {
    version: Version,
    bounds: Bounds,
    flag: FlagKind,
    requests: Vec<Asked>,
}

/// Seen as its version, bounds and flag, and its requests in the order of the file.
impl Model for Policy {
    ghost use Rattle.std.specs.Prelude.{IsTrue};
    ghost use Rattle.report_verifier.specs.{Policy.PolicyFields, Validity.are_valid_for};

    ghost Value = { PolicyFields };

    ghost view = { λ policy. record {
      version = policy.version;
      bounds = policy.bounds;
      flag = policy.flag;
      requests = policy.requests.items;
    } };

    ghost invariant = { λ policy. IsTrue (are_valid_for policy.version policy.bounds) };
}

impl Policy {
    pub(crate) fn new(alloc: Global, version: Version, bounds: Bounds, flag: FlagKind) -> Policy
        requires { IsTrue (are_valid_for version bounds) }
        ensures { result ≡ record {
          version = version;
          bounds = bounds;
          flag = flag;
          requests = [];
        } }
    {
        Policy {
            version,
            bounds,
            flag,
            requests: Vec::new(alloc),
        }
    }

    // The same with this flag.
    pub(crate) fn with_flag(self, flag: FlagKind) -> Policy
        ensures { result ≡ record self { flag = flag } }
    {
        Policy {
            version: self.version,
            bounds: self.bounds,
            flag,
            requests: self.requests,
        }
    }

    // Whether this request is among those that were put.
    pub(crate) fn has_request(&self, asked: &Asked) -> bool
        ensures { result ≡ has_request self.now asked.now }
    {
        self.requests.iter().any(|earlier| asked == earlier)
    }

    // Puts a request after the others.
    pub(crate) fn add(&mut self, asked: Asked) -> Result<(), AllocError>
        ensures { OnOk result (self.new
            ≡ record self.old { requests = self.old.requests ++ asked ∷ [] }) }
    {
        self.requests.reserve(1)?;
        self.requests.push_reserved(asked);
        Ok(())
    }

    pub fn version(&self) -> Version
        ensures { result ≡ self.now.version }
    {
        self.version
    }

    pub fn bounds(&self) -> Bounds
        ensures bounds { result ≡ self.now.bounds }
        ensures valid { IsTrue (are_valid_for self.now.version result) }
    {
        self.bounds
    }

    /// In version 1 the flag is `Exec`.
    pub fn flag(&self) -> FlagKind
        ensures { result ≡ self.now.flag }
    {
        self.flag
    }

    /// What report `i` shall name, from 0; `None` exactly past the last request.
    pub fn expect(&self, i: usize) -> Option<Expect>
        ensures expectation { result ≡ expect_at self.now i }
        ensures valid { IfSome result (λ expect.
            IsTrue (are_valid_for expect.version expect.bounds)) }
    {
        let asked = *self.requests.get(i)?;
        Some(Expect {
            version: self.version,
            chal: asked.chal,
            count: asked.count,
            bounds: self.bounds,
            flag: self.flag,
        })
    }
}
