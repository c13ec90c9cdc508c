// What holds of every log of the one-by-one machine.
ghost use Rattle.sequential.specs.Laws.{LogInOrder, EachLineWasLeast, EachLineHasACause, NothingPendingIsTheEnd};

// No line comes before one that stands in front of it.
pub fn log_is_in_order()
    ensures { LogInOrder }
{}

// Each line is the least of what was pending when the machine took it.
pub fn each_line_was_least()
    ensures { EachLineWasLeast }
{}

// Each line is a stimulus, or an earlier line sent it.
pub fn each_line_has_a_cause()
    ensures { EachLineHasACause }
{}

// Once nothing is pending, no step changes the machine.
pub fn nothing_pending_is_the_end()
    ensures { NothingPendingIsTheEnd }
{}
