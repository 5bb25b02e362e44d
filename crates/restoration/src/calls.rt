//! Calls and messages for a subscriber: giving a roaming number, and how to reach the handset.
ghost use Rattle.std.specs.Prelude.{◌≡◌};
ghost use Rattle.restoration.specs.Plans.{roaming_number_plan, reach_plan};

use crate::plan::{Plan, unless_open};
use crate::record::{Indicator, Record};
use event::{Handling, Kind, Reply};

/// Provide Roaming Number at a register of one MSC or several; `busy` tells whether Restore Data is open.
// Truth values: `several` is one in the state that the laws speak of, and `busy` is what a table answers.
pub fn plan_roaming_number(several: bool, old: Option<Record>, busy: bool) -> Plan
    ensures { result ≡ roaming_number_plan several old busy }
{
    let location = if several {
        Indicator::NotConfirmed
    } else {
        Indicator::Confirmed
    };
    let lacks_data = old.is_none_or(|record| record.data == Indicator::NotConfirmed);
    Plan {
        kept: old.is_none().then_some(Record::made(location)),
        reply: Reply::Done,
        handling: Handling::RoamingNumber,
        opens: unless_open(lacks_data, busy, Kind::RestoreData),
    }
}

/// How to reach the handset. Where that is not known the reply is `unknown`, which depends on who asks.
pub fn plan_reach(unknown: Reply, old: Option<Record>) -> Plan
    ensures { result ≡ reach_plan unknown old }
{
    let Some(record) = old else {
        return Plan::reply_only(unknown);
    };
    let handling = match (record.data, record.radio) {
        (Indicator::NotConfirmed, _) => return Plan::reply_only(unknown),
        (Indicator::Confirmed, Indicator::NotConfirmed) => Handling::Search,
        (Indicator::Confirmed, Indicator::Confirmed) => Handling::Page,
    };
    Plan {
        handling,
        ..Plan::reply_only(Reply::Done)
    }
}
