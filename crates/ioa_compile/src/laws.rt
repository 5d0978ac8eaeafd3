//! What the tables of programs promise. The functions do nothing: what they say is in their contracts.

ghost use Rattle.ioa_compile.specs.Hosts.{EntriesAreTheHosts};

/// A program has the entries of the source's hosts, each in its place, and proposes what they propose.
pub fn entries_are_the_hosts()
    ensures { EntriesAreTheHosts }
{}
