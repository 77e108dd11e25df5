//! The certificates that are being read.

ghost use Rattle.std.specs.Prelude.{◌≡◌, OnOk};
ghost use Rattle.potential_types.specs.Views.{summand_of, summands_of};
ghost use Rattle.potential_text.specs.Certificates as certificates;
ghost use Rattle.potential_text.specs.Views.{proofs_of};

use model::Memory;
use potential_types::Summand;
use std::alloc::Global;
use std::mem::replace;

/// The summands of the certificate that is being read, and the two certificates before it.
#[derive(Drop)]
pub struct Certificates {
    pub summands: Vec<Summand>,
    pub first: Vec<Summand>,
    pub second: Vec<Summand>,
}

impl Certificates {
    /// Nothing was read.
    pub fn new(alloc: Global) -> Certificates
        ensures { proofs_of result ≡ certificates.no_certificates }
    {
        Certificates {
            summands: Vec::new(alloc),
            first: Vec::new(alloc),
            second: Vec::new(alloc),
        }
    }

    /// A summand was read.
    ///
    /// # Errors
    ///
    /// `Memory` where an allocation fails.
    pub fn push(&mut self, summand: Summand) -> Result<(), Memory>
        ensures { OnOk result (proofs_of self.new
            ≡ certificates.with_summand (summand_of summand) (proofs_of self.old)) }
    {
        self.summands.push(summand)?;
        Ok(())
    }

    /// The certificate ends: it is the second one, and the one before it the first.
    pub fn end(&mut self, alloc: Global)
        ensures { proofs_of self.new ≡ certificates.certificate_ended (proofs_of self.old) }
    {
        let last = replace(&mut self.summands, Vec::new(alloc));
        let before = replace(&mut self.second, last);
        self.first = before;
    }

    /// The first certificate is used.
    pub fn take_first(&mut self, alloc: Global) -> Vec<Summand>
        ensures certificate { summands_of result.items ≡ (proofs_of self.old).first }
        ensures left { proofs_of self.new ≡ certificates.without_first (proofs_of self.old) }
    {
        replace(&mut self.first, Vec::new(alloc))
    }

    /// The second certificate is used.
    pub fn take_second(&mut self, alloc: Global) -> Vec<Summand>
        ensures certificate { summands_of result.items ≡ (proofs_of self.old).second }
        ensures left { proofs_of self.new ≡ certificates.without_second (proofs_of self.old) }
    {
        replace(&mut self.second, Vec::new(alloc))
    }
}
