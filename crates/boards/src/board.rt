// What a board is: four words, and a rule by which it reacts to a message.
ghost use Rattle.std.specs.Prelude.{◌≡◌};
ghost use Rattle.bus.specs.declared.Words.{Words};
ghost use Rattle.bus.specs.Reactions.{Rule};

use bus::{Message, Sends, Words};

// `load` and `words` are its own calls: with `From` and `Into` each board would say the same, and need them beside.
pub trait Board: Copy {
    // Its four words.
    ghost state: { Self → Words };

    // How it reacts: fixed for the kind of board.
    ghost rule: { Rule };

    // Sets the words.
    fn load(&mut self, words: Words)
        ensures { state self.new ≡ words };

    // Tells the words.
    fn words(&self) -> Words
        ensures { result ≡ state self.now };

    // Puts the rule's words in place, and answers the rule's sends.
    fn react(&mut self, message: &Message) -> Sends
        ensures leaves_the_rules_words { state self.new ≡ (rule (state self.old) message.now).words }
        ensures answers_the_rules_sends { result ≡ (rule (state self.old) message.now).sends };
}
