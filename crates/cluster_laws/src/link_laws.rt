//! Laws of two nodes of a cluster at the two ends of a link.
ghost use Rattle.cluster_laws.specs.StreamLaw.{FollowersAskWhatWasSent};

/// What a follower asks of its node was sent: over a link that gives what a stream wrote on it, or a front
/// of that, it asks just the files and the drops that the stream's Hellos were answered with, in their
/// order. So that a delivery was sent, which the laws of a cluster ask of each, is true of two such nodes.
pub fn followers_ask_what_was_sent()
    ensures { FollowersAskWhatWasSent }
{}
