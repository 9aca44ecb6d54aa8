// Laws of the definitions, each the contract of an empty function.
ghost use Rattle.ddpsh.specs.Laws.{ItemsHaveOneAnswer, ScriptsHaveOneRun, ImagesFixStates, FewLinesWantNoEpoch};

/// What a line comes to, with its payload, is told by the state before it: its calls, the replies to them, the answer,
/// and the state that it leaves.
pub fn items_have_one_answer()
    ensures { ItemsHaveOneAnswer }
{}

/// What a script comes to that is answered to its end is told by its bytes and the state before it: each line with its
/// answer and the state that it leaves.
pub fn scripts_have_one_run()
    ensures { ScriptsHaveOneRun }
{}

/// Over an image that is mounted a script tells each state, whole: the one that the run opened with, and the one that
/// each answered line leaves.
pub fn images_fix_states()
    ensures { ImagesFixStates }
{}

/// Over an image that is mounted no epoch is wanting, unless the last one is near: each line takes one at most.
pub fn few_lines_want_no_epoch()
    ensures { FewLinesWantNoEpoch }
{}
