// Laws of the definitions, each the contract of an empty function.
ghost use Rattle.plain_volume.specs.Laws.{StepsLeaveOneVolume, RefusedCallsChangeNothing, RepliesFitTheirCalls, OwnRepliesAreSteps, OnlyTakersLackMemory, ReplaySplits, LegalSplits, LegalJoins, CallsKeepLawfulVolumes, EmptyIsLawful};

/// From a volume, a call and a reply there is at most one volume after.
pub fn steps_leave_one_volume()
    ensures { StepsLeaveOneVolume }
{}

/// A refused call changes nothing.
pub fn refused_calls_change_nothing()
    ensures { RefusedCallsChangeNothing }
{}

/// A call has no other reply than one of its own kind or a refusal.
pub fn replies_fit_their_calls()
    ensures { RepliesFitTheirCalls }
{}

/// The machine's own reply and, to a call that takes memory, a refusal for want of it, are replies that it may give.
pub fn own_replies_are_steps()
    ensures { OwnRepliesAreSteps }
{}

/// Only a call that takes memory is ever refused for want of it.
pub fn only_takers_lack_memory()
    ensures { OnlyTakersLackMemory }
{}

/// A list of calls with replies is legal exactly where its front is, and its rest is from where the front leaves.
pub fn legal_lists_split()
    ensures replay { ReplaySplits }
    ensures front_and_rest { LegalSplits }
    ensures whole { LegalJoins }
{}

/// The empty volume is lawful, and each step keeps a volume lawful: names are distinct, lawful and in order, there
/// are not too many files, and no file is too long.
pub fn calls_keep_lawful_volumes()
    ensures empty { EmptyIsLawful }
    ensures steps { CallsKeepLawfulVolumes }
{}
