// What holds of the orders, as contracts: each function does nothing, and its contract is a theorem.
ghost use Rattle.rows.specs.Order.{Total};
ghost use Rattle.bus.specs.Order.{message_before, sent_before};
ghost use Rattle.bus.specs.Theorems.{AtOneTimeTheLowerSourceComesFirst, Board1ComesBeforeTheOutside};

// The order of messages is total.
pub fn messages_are_totally_ordered()
    ensures { Total message_before }
{}

// The order of sent records is total.
pub fn sent_records_are_totally_ordered()
    ensures { Total sent_before }
{}

// Of two messages at one time the one with the lower source comes first, whatever else they hold.
pub fn at_one_time_the_lower_source_comes_first()
    ensures always { AtOneTimeTheLowerSourceComesFirst }
    ensures example { Board1ComesBeforeTheOutside }
{}
