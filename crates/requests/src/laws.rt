// What holds of requests.
ghost use Rattle.requests.specs.Requests.{RequestsRoundTrip};

// Reading a request and spelling it are inverse.
pub fn requests_round_trip()
    ensures { RequestsRoundTrip }
{}
