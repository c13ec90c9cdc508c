// The kinds of messages that boards know, and the source that is no board.
// Numbers, and no enum: messages of every other kind travel too, and boards take no notice of them.
ghost use Rattle.std.specs.Prelude.{◌≡◌};
ghost use Rattle.bus.specs.Kinds.{tick, card, inquiry, verdict, beat, outside};

// A ticker's own call.
pub const TICK: u8 = 1;

// A card was held to a reader.
pub const CARD: u8 = 2;

// A reader asks about a card.
pub const INQUIRY: u8 = 3;

// The answer to an inquiry.
pub const VERDICT: u8 = 4;

// A ticker has counted.
pub const BEAT: u8 = 5;

// The source of a message that comes from outside the bus. A number, and no `Option`: sources are compared as
// numbers, and the outside is the last.
pub const OUTSIDE: u8 = 255;

// The constants have the numbers that the rules give them.
pub fn kinds_are_numbered()
    ensures tick_is_1 { TICK ≡ tick }
    ensures card_is_2 { CARD ≡ card }
    ensures inquiry_is_3 { INQUIRY ≡ inquiry }
    ensures verdict_is_4 { VERDICT ≡ verdict }
    ensures beat_is_5 { BEAT ≡ beat }
    ensures outside_is_255 { OUTSIDE ≡ outside }
{}
