//! Decides by computation whether a section of a program is accepted, by computing its first fault.
//!
//! Builds on `section_checks`. Definitions are in `specs/`. Main guarantee: the computed fault is none exactly if all
//! checks pass, and else that of the first check that fails. The functions here have no code: the contract of each is
//! the law, or values that were worked out by hand.
#![tactic(auto)]

ghost use Rattle.section_decide.specs.Laws.{FaultsAreComputed};
ghost use Rattle.section_decide.specs.Worked.{SectionsAreJudged, ShapesAreRefused, CertificatesAreRefused};
ghost use Rattle.section_decide.specs.Worked.{LimitsAreMet};

/// The computed fault is the first fault of the section, and none is computed exactly if the section is accepted.
pub fn faults_are_computed()
    ensures { FaultsAreComputed }
{}

/// Worked values: a section of a small program that is accepted, and the first fault of each of its faulty variants.
pub fn faults_are_as_worked_out()
    ensures accepted { SectionsAreJudged }
    ensures shapes { ShapesAreRefused }
    ensures certificates { CertificatesAreRefused }
    ensures limits { LimitsAreMet }
{}
