// A law of the refusals.
ghost use Rattle.packing.specs.Packing.{RefusedForOneReason};

pub fn a_text_is_refused_for_one_reason()
    ensures { RefusedForOneReason }
{}
