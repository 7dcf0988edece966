// What holds of replies.
ghost use Rattle.answering.specs.Fitting.{RepliesFit};

// Every reply of the controller can be spelt in 2,048 octets.
pub fn replies_fit()
    ensures { RepliesFit }
{}
