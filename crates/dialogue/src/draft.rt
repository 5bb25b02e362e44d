//! A message's groups go into a draft, all of them or none.
ghost use Rattle.std.specs.Prelude.{◌≡◌, unwrap_or};
ghost use Rattle.dialogue.specs.Messages.{message, message_ignored, message_draft, with_ignored};

use crate::data::SubscriberData;
use crate::group::{Group, read_group};
use event::{GROUP_LENGTH, Ignored};

/// Puts the old draft back at its end. Once the whole message is taken there is none to put back.
pub struct DraftGuard<'a> {
    draft: &'a mut SubscriberData,
    old: Option<SubscriberData>,
}

impl Drop for DraftGuard<'_> {
    fn drop(self)
        ensures { self.exit.0.now ≡ unwrap_or self.entry.old self.entry.draft.now }
    {
        let DraftGuard { draft, old } = self;
        if let Some(old) = old {
            *draft = old;
        }
    }
}

/// The groups passed over, with one group more.
fn noted(ignored: Ignored, group: Group) -> Ignored
    ensures { result ≡ with_ignored group ignored }
{
    match group {
        Group::Supplementary => Ignored {
            supplementary: true,
            ..ignored
        },
        Group::Regional => Ignored {
            regional: true,
            ..ignored
        },
        _ => ignored,
    }
}

/// Takes the groups into the draft and tells which were passed over; an unexpected one rejects the message, and
/// the draft is then as it was.
pub fn take_message(draft: &mut SubscriberData, groups: &[u8]) -> Option<Ignored>
    ensures answer { result ≡ message_ignored (message groups.now draft.old) }
    ensures draft { draft.new ≡ message_draft (message groups.now draft.old) draft.old }
{
    let old = Some(*draft);
    let mut guard = DraftGuard { draft, old };
    let mut ignored = Ignored::NONE;
    let (whole, _) = groups.as_chunks::<GROUP_LENGTH>();
    for bytes in whole {
        let group = read_group(bytes)?;
        guard.draft.put(group);
        ignored = noted(ignored, group);
    }
    guard.old = None;
    Some(ignored)
}
