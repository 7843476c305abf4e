// The word format for programs in C: the exports of `words`, as a static library. The header is include/scene_share.h.
#![tactic(auto)]

ghost use Rattle.std.specs.Prelude.{◌≡◌};
ghost use Rattle.words.specs.Messages.{message_kind, message_of};

use words::messages::message_kind;

/// For an editor written in C: 1 for an edit, 2 for a report, 0 for words that are no message or `sites` out of range.
#[unsafe(no_mangle)]
pub extern "C" fn scene_share_message_kind(words: &[u32], sites: u32) -> u32
    ensures { result ≡ message_kind (message_of sites words.now) }
{
    message_kind(words, sites)
}
