//! Laws of coverage. The functions do nothing: what they say is in their contracts.

ghost use Rattle.ioa_coverage.specs.Performed.{CoverageIsTheHosts};

/// The entries of a program are performed as often as those of its source's components.
pub fn coverage_is_the_hosts()
    ensures { CoverageIsTheHosts }
{}
