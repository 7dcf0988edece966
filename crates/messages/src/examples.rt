// The worked examples.
ghost use Rattle.messages.specs.Examples.{FaultsHold, MessagesHold, ValuesHold};

pub fn examples_hold()
    ensures { (MessagesHold) × ((FaultsHold) × (ValuesHold)) }
{}
