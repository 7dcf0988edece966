// The worked examples of calls.
ghost use Rattle.law.specs.Examples.{CallsHold, OverdueHolds, SentHolds, TablesHold};
ghost use Rattle.law.specs.Refused.{LinksHold, RefusalsHold};

pub fn calls_hold()
    ensures calls { CallsHold }
    ensures tables { TablesHold }
    ensures sent { SentHolds }
    ensures overdue { OverdueHolds }
    ensures refusals { RefusalsHold }
    ensures links { LinksHold }
{}
