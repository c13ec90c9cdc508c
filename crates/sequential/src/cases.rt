// Worked cases of the one-by-one machine.
ghost use Rattle.sequential.specs.Cases.{SendForEndTimePasses, SendPastEndTimeIsDropped, FirstThreeLines};

// A card at 995 sends for the end time, 1000.
pub fn send_for_end_time_passes()
    ensures { SendForEndTimePasses }
{}

// A card at 996 sends nothing, and the number stays free.
pub fn send_past_end_time_is_dropped()
    ensures { SendPastEndTimeIsDropped }
{}

// A card, its inquiry and the verdict come before a later card.
pub fn first_three_lines()
    ensures { FirstThreeLines }
{}
