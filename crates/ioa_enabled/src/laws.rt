//! Laws of what is enabled. The functions do nothing: what they say is in their contracts.

ghost use Rattle.ioa_enabled.specs.Hosted.{OffersAreTheHosts};
ghost use Rattle.ioa_enabled.specs.Proposed.{ProposalsAreWays, WaysAreProposals};
ghost use Rattle.ioa_enabled.specs.Silent.{NothingMoreIsProposed};

/// What some words make an entry propose is one of its ways, and each of its ways is what some words make it propose.
pub fn ways_are_proposals()
    ensures ways { ProposalsAreWays }
    ensures proposals { WaysAreProposals }
{}

/// The ways of a program's entries are those of its source's, and as many of them are enabled, also where a host is down, so that none is.
pub fn offers_are_the_hosts()
    ensures { OffersAreTheHosts }
{}

/// Where no line is told of the hosts' own actions, as `put_next` tells them, no words make an entry of theirs propose an action that is enabled.
pub fn nothing_more_is_proposed()
    ensures { NothingMoreIsProposed }
{}
