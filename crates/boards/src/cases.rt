// Worked cases of the boards' rules, as theorems.
ghost use Rattle.boards.specs.Cases.{TickSendsBeatAndNextTick, CardSendsInquiry, EvenVerdictCountsAsRefused, CardIsIgnoredWhileWaiting, SameCardGetsVerdictZero};

// A ticker with one tick left beats and sends itself the last tick.
pub fn tick_sends_beat_and_next_tick()
    ensures { TickSendsBeatAndNextTick }
{}

// A reader that is ready keeps the card and asks about it.
pub fn card_sends_inquiry()
    ensures { CardSendsInquiry }
{}

// A reader that waits counts an even verdict as refused, and is ready again.
pub fn even_verdict_counts_as_refused()
    ensures { EvenVerdictCountsAsRefused }
{}

// A reader that waits takes no other card.
pub fn card_is_ignored_while_waiting()
    ensures { CardIsIgnoredWhileWaiting }
{}

// A fare computer that is asked about the same card again gives the verdict 0.
pub fn same_card_gets_verdict_zero()
    ensures { SameCardGetsVerdictZero }
{}
