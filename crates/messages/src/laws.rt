// What holds of every message.
ghost use Rattle.messages.specs.Messages.{RoundTrip};

// Reading any message and spelling it are inverse, header included.
pub fn messages_round_trip()
    ensures { RoundTrip }
{}
