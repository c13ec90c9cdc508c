// What holds of every bench, as contracts: the functions do nothing.
ghost use Rattle.model.specs.Cases.{AnEqualOfTheLastStandingMessageBecomesOpen};
ghost use Rattle.model.specs.Kept.{ReachedBenchesKeepTheirRowsInOrder, ReachedBenchesStayInBounds};
ghost use Rattle.model.specs.Law.{CommittedLinesAreTheSequentialLog};

// After every list of calls on a started bench the law of runs holds.
pub fn committed_lines_are_the_sequential_log()
    ensures { CommittedLinesAreTheSequentialLog }
{}

// On every bench that calls lead to, each board's in-row and early anti-messages are sorted, and no message is in both.
pub fn reached_benches_keep_their_rows_in_order()
    ensures { ReachedBenchesKeepTheirRowsInOrder }
{}

// On every bench that calls lead to, boards and transit have room, and all counts fit their types.
pub fn reached_benches_stay_in_bounds()
    ensures { ReachedBenchesStayInBounds }
{}

// An equal of the last message that stands becomes open and undoes nothing; its anti-message takes the open one.
pub fn an_equal_of_the_last_standing_message_becomes_open()
    ensures { AnEqualOfTheLastStandingMessageBecomesOpen }
{}
